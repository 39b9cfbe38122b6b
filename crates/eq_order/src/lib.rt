//! The order in which equations give values to names.
#![tactic(auto)]

mod clocks;
mod ends;
mod fault;
pub mod kinds;
mod law;
mod mirror;
mod ordering;
mod reaching;
mod reads;
mod uses;

pub use ends::{OrderCode, OrderEnd};
pub use law::{answer_law, order_law};
pub use ordering::order;
pub use uses::Use;
