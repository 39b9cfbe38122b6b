//! Rules of the arguments of modifications.
#![tactic(auto)]

mod arguments;
mod paths;
mod target;

pub use arguments::misplaced_argument;
pub use target::Target;
