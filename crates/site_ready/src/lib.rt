//! The names on which the conditions of sites rest wait for no clock (MLS 3.6, chapter 16, "Clock Constructors", in this
//! project's profile).
#![tactic(auto)]

mod law;

pub use law::{rests_law, unheld_law};
