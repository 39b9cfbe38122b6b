//! Groups of base partitions that read nothing of each other, at a moment or the one before it, so that each group can run
//! by itself over many moments.
#![tactic(auto)]

mod asking;
mod first;
mod grouping;
mod joining;
mod law;
mod units;

pub use grouping::groups;
pub use law::{distinct_law, group_law, one_grouping_law, unit_law};
