//! The steps of a model's moments before the first one, from the order of its uses.
#![tactic(auto)]

mod counting;
mod division;
mod parting;
mod preparing;
mod reads;
mod starting;

pub use counting::{count_partitions, numbered};
pub use division::{Division, divide};
pub use parting::{Parted, prepare_parts};
pub use preparing::prepare_steps;
pub use starting::{always, left_at_first, numbers, room};
