//! Equations solved for a name.
#![tactic(auto)]

mod gathering;
pub mod kinds;
mod law;
mod solving;
mod standing;

pub use gathering::gather;
pub use law::{solves_law, spine_law, unread_law};
pub use solving::{around, solve_value};
pub use standing::{Manner, lags, spine};
