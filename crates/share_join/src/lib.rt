//! One moment put together from shares that were run side by side.
//!
//! Each function is a law: it does nothing, and its contract says that what several shares took from one base is a
//! moment of the whole model by its stages.
#![tactic(auto)]

mod law;

pub use law::{deal_law, first_law, join_law, moment_law, row_law};
