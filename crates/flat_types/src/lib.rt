//! The types of flat models: a raw model becomes a typed one, or the first rule of types is told that it breaks.
//!
//! Equations are numbered from 0 here; printed numbers are from 1.
#![tactic(auto)]

mod boolean;
mod callee;
mod calls;
mod counters;
mod ends;
mod law;
mod model;
mod named;
mod operators;
mod outcome;
mod reader;

pub use callee::{Callee, Operator};
pub use ends::{TypeCode, TypeEnd};
pub use law::answer_law;
pub use model::typed;
pub use outcome::Outcome;
