//! The uses of a base partition as prepared code, by the places of their clocks.
#![tactic(auto)]

mod coded;
mod law;
mod laying;
mod preparing;
mod sides;
mod stretching;

pub use coded::{Coded, Landing};
pub use law::size_law;
pub use preparing::prepare_code;
