//! The flat model that a command asks for, from the bytes of its file.
#![tactic(auto)]

mod model;

pub use model::model_of;
