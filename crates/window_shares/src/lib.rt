//! A window of moments put together from shares that each ran it by itself.
//!
//! Each function is a law: it does nothing, and its contract says that what several shares left of the moments of a
//! window are moments of the whole model.
#![tactic(auto)]

mod law;

pub use law::{across_law, planned_law, runs_law, share_law, stop_law};
