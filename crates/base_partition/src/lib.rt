//! The classes of names and nodes of a model, and its base partitions.
#![tactic(auto)]

mod first;
mod group;
mod joining;
mod kinds;
mod law;
mod marking;
mod member;
mod numbering;
mod partition;
mod placing;
mod source;

pub use kinds::ClassEnd;
pub use law::{answer_once_law, classes_once_law};
pub use partition::classes;
