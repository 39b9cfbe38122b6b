//! A run of a prepared model: its rows one by one, then the first fault or the end.
#![tactic(auto)]

mod fault;
mod moment;
mod preparing;
mod runner;
mod sheet;

pub use run_ahead::Advance;
pub use runner::Runner;
