//! What the clocks of a model give to those who call for them and to a run
//! (MLS 3.6, chapter 16, "Clock Partitioning" and "Sub-Clock Inferencing").
#![tactic(auto)]

mod law;

pub use law::{check_once_law, fit_law, own_law};
