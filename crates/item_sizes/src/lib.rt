//! What the items of instances count in a model: equations, and source tokens.
#![tactic(auto)]

mod bindings;
mod measure;
mod size;

pub use bindings::is_fixed;
pub use measure::Measure;
pub use size::{MANY_EQUATIONS, MANY_TOKENS, Size};
