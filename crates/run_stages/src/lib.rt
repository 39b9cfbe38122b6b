//! The stages of a run's moments, from the order of a model and the stages of its uses.
//!
//! The function is a law: it does nothing, and its contract ties what `order` and `stages` answer to what the moments of a
//! run are put together from.
#![tactic(auto)]

mod law;

pub use law::staged_law;
