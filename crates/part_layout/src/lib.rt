//! The layout of the cells of a base partition: one for each name that its equations reach or read, for each value at the
//! tick before and at the moment before, for each constant, and for what is told of clocks.
//!
//! Cells have numbers of the partition's own, so that the layout is linear in the partition's equations and not in the
//! model's.
#![tactic(auto)]

mod law;
mod lines;
mod reads;

pub use law::{laid_law, table_law};
pub use lines::{PartLine, lay_out};
