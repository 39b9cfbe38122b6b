//! What a flat model whose types were found gives to those who call for it.
#![tactic(auto)]

mod law;

pub use law::{model_law, sides_law};
