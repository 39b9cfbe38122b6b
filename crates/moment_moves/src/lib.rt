//! How a moment of a run ends that was run by its stages, sites first.
//!
//! Each function is a law: it does nothing, and its contract ties what the stages, the sites and a plan give at a moment to
//! how the run goes on.
#![tactic(auto)]

mod law;

pub use law::{kept_law, moment_law, ticks_law};
