//! The limits of the flat model of a text: at most 65,536 names, no two the same and each of at most 4,127 bytes, starts and
//! constants of 64 bits, at most 65,536 equations, and an equation for each clause.
#![tactic(auto)]

mod law;

pub use law::flat_limits_law;
