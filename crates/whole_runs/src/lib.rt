//! A run of the stretches of a base partition in which no equation fails: it takes all uses, and each name whose class ticks
//! has a value.
//!
//! Nothing here computes: the function is a law, and its contract is a statement on the definitions of `part_stretches`,
//! `side_theory` and `moment_theory`.
#![tactic(auto)]

mod law;

pub use law::whole_law;
