//! A run whose rows are given one by one, out of windows of moments that may have run ahead.
#![tactic(auto)]

mod ahead;
mod answer;
mod windows;

pub use ahead::Ahead;
pub use answer::Advance;
pub use windows::Windows;
