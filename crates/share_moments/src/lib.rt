//! A moment that shares took by themselves, as one of the whole model.
//!
//! Each function is a law: it does nothing, and its contract ties what `share_run` says of one share to what `share_join`
//! says of several.
#![tactic(auto)]

mod law;

pub use law::{deal_law, groups_law, names_law, run_law, taken_law};
