//! The equations of connections: the pairs of names that the connects of instances join, and an equation for each other
//! member of the sets that they make. Source: MLS 3.6, chapter 9, "Generation of Connection Equations", in this project's
//! profile.
#![tactic(auto)]

mod joining;
mod pairs;
mod set_equations;
mod spellings;

pub use joining::connection_equations;
pub use pairs::Joiner;
