//! The flat model of a class of a model file, or the first broken rule of its names, instances and parameters. Source: MLS
//! 3.6, chapter 5, "Flattening Process", in this project's profile.
#![tactic(auto)]

mod answer;
mod faults;
mod model;
mod place;
mod rules;

pub use answer::flatten;
pub use flat_answer::{FlattenEnd, NameCode};
