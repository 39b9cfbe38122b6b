//! The side of an equation that is solved for a name: what the name is by the other side and the operators on the way to it,
//! undone. The way leads through sums, differences, unary minus and `not`.
#![tactic(auto)]

mod law;
mod sums;
mod undoing;

pub use law::{known_law, undone_law};
pub use undoing::{bare_side, solved_side};
