//! Pieces of a moment, stepped side by side.
#![tactic(auto)]

mod forking;
mod slot;
mod turns;

pub use forking::step_slots;
pub use slot::{Slot, Step};
