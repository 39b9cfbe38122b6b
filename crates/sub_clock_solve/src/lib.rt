//! The clocks of the classes of a model, from its constructors and the conversions with a given factor
//! (MLS 3.6, chapter 16, "Sub-Clock Inferencing"), or the first rule of them that is broken.
#![tactic(auto)]

mod conflict;
mod gather;
mod given;
mod kinds;
mod law;
mod seed;
mod solving;

pub use kinds::SolveEnd;
pub use law::{conflict_law, one_answer_law, one_clocking_law};
pub use solving::solve;
