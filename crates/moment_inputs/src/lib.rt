//! The values of the inputs at a moment, and the row of its columns.
#![tactic(auto)]

mod columns;
mod inputs;
mod search;

pub use columns::{fill_row, list_columns};
pub use inputs::{fill_inputs, fill_inputs_near};
