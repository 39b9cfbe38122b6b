//! Sums over all that the instances of a class have, without a walk over them: the classes are summed up level by level, each
//! from the sums of the classes of its components.
#![tactic(auto)]

mod weighing;

pub use weighing::{Weighing, added, number_at};
