//! Prepared code: each expression as instructions in one list, over one array of cells.
//!
//! A cell is a word of 64 bits: an Integer, or a Boolean as 0 or 1. Running the code of an expression gives its
//! value of the flat model, or its first failure.
#![tactic(auto)]

mod backward;
mod compile;
mod law;
mod machine;

pub use backward::Backward;
pub use compile::{Constant, Measure, NoCode, Places, Table, emit};
pub use law::{code_law, known_law, lines_law};
pub use machine::{Instr, Op, Stop, fits, run};
