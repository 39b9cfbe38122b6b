//! A share of a window: some base partitions of a model, with unclocked uses that wait for them, run by themselves.
#![tactic(auto)]

mod gathering;
mod share;
mod taking;

pub use share::ShareUses;
pub use taking::step_moment;
