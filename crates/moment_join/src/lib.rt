//! One moment put together from its stages.
//!
//! Each function is a law: it does nothing, and its contract says how a moment ends whose uses were taken by stages, the
//! pieces side by side.
#![tactic(auto)]

mod law;

pub use law::{goes_on_law, holds_law, sites_law, taken_law, told_law};
