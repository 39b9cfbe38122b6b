//! Whether the clocks that were solved make a clocking of a model
//! (MLS 3.6, chapter 16, "Sub-Clock Inferencing" and "Clock Constructors"), and that clocking.
#![tactic(auto)]

mod checking;
mod condition;
mod factor;
mod flaw;
mod kinds;
mod law;
mod numbers;
mod parts;

pub use checking::check;
pub use kinds::CheckEnd;
pub use law::ready_law;
