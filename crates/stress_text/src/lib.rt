//! The text of the stress model, which is generated from its number of members.
#![tactic(auto)]

mod text;

pub use text::stress_text;
