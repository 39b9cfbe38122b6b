//! The loop that adds up the rows of a whole run of the stress model: its lines on out, or the line of a fault on err.
#![tactic(auto)]

mod stress;
mod tally;

pub use stress::run_stress;
