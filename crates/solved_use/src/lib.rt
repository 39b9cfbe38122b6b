//! The theory of a use whose equation is solved for its name, whatever its form.
//!
//! Nothing here computes: the function is a law, and its contract ties what `eq_orient` tells of an equation that is solved
//! over views to what the use gives at a moment.
#![tactic(auto)]

mod law;

pub use law::solving_law;
