//! The first equation of a base partition to fail at a moment, by its number, whatever the order in which its uses are taken.
//!
//! Where the quick run of a partition has failed, its equations are run once more one by one, and those that read a
//! name without a value are left out.
#![tactic(auto)]

mod bits;
mod careful;
mod law;
mod least;

pub use careful::{LoneLine, first_failure};
pub use law::{
    again_law, careful_law, least_law, lone_law, moment_law, one_told_law, ready_law, some_law,
};
pub use least::EquationFailing;
