//! What the rows of a run add up to: how many they are, how many of their cells are filled, and the sum of these.
#![tactic(auto)]

mod lines;
mod sums;

pub use lines::{Lines, sums_text};
pub use sums::Sums;
