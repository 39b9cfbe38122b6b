//! The clocking of a model is what a run asks of it (MLS 3.6, chapter 16, "Clock Partitioning").
#![tactic(auto)]

mod law;

pub use law::runnable_law;
