//! The names of a flat model: those of the variables but parameters and constants, in flat order, with their types, their
//! starts, and which of them are inputs.
#![tactic(auto)]

mod inputs;
mod names;
mod outer;
mod table;

pub use names::Namer;
pub use outer::outer_table;
pub use table::{NameTable, name_table};
