//! The order of a moment, from the order in which equations reach names.
//!
//! `stages` tells when each use is taken. Each other function is a law: it does nothing, and its contract ties what
//! `eq_order` and `stages` answer to what the laws of `moment_theory` rest on.
#![tactic(auto)]

mod division;
mod law;
mod resting;
mod stage;

pub use division::stages;
pub use law::{answer_law, moment_law, one_division_law, pure_law, stages_law};
pub use stage::Stage;
