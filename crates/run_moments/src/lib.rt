//! A run one moment after the other, over any plan.
#![tactic(auto)]

mod body;
mod single;

pub use body::Body;
pub use single::Single;
