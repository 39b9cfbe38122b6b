//! Parameters, constants and starts without a value: those whose value depends on itself, and those that give none.
#![tactic(auto)]

mod faults;
mod law;
mod missing;

pub use faults::{ValueFault, value_fault};
pub use law::value_law;
pub use missing::Needs;
