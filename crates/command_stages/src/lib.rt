//! The stages of a command as functions: each does what a stage of its answer says, and gives what the stage makes, or
//! how the command ends there. The top call strings them together.
#![tactic(auto)]

mod clocking;
mod codes;
mod end;
mod modes;
mod place;
mod reading;
mod running;
mod source;
mod tabling;
mod told;
mod wording;

pub use clocking::clocking_of;
pub use end::End;
pub use modes::{print_clocks, print_flat};
pub use running::{order_of, plan_of};
pub use source::{source_of, text_of, tree_of, typed_of};
pub use tabling::table_of;
pub use wording::command_of;
