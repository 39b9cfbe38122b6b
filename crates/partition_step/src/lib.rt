//! A base partition from moment to moment: its uses, with what is kept of its names and classes.
#![tactic(auto)]

mod coding;
mod keeping;
mod law;
mod laying;
mod part;
mod preparing;
mod showing;
mod stepping;

pub use law::{one_step_law, others_law, places_law, rests_law};
pub use part::{ClassKept, Outcome, Part};
