//! The loop that prints a whole run: the header and a line for each row on out, and the line of a fault on err.
#![tactic(auto)]

mod model;
mod print;

pub use model::{PlannedRun, run_model};
pub use print::{print_run, put_last};
