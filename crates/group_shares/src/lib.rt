//! The groups of a model's units of work, given to shares that can run by themselves.
//!
//! Each function is a law: it does nothing, and its contract ties the groups that `part_groups` answers to the shares that
//! `share_run` runs and `share_join` puts together.
#![tactic(auto)]

mod law;

pub use law::{given_law, shares_law};
