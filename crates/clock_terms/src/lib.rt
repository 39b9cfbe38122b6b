//! What a flat model says of clocks: which names and equations share one, which clocks are given, and how one follows from another.
#![tactic(auto)]

mod cut;
mod data;
mod gather;
mod law;
mod node;
mod walk;

pub use data::{Cause, Classes, Constructor, Grid, Grids, NodeOf, Relation, Terms};
pub use gather::terms;
pub use law::terms_once_law;
