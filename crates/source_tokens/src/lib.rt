//! How many tokens of a text begin in a piece of it.
#![tactic(auto)]

mod starts;

pub use starts::Starts;
