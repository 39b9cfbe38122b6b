//! How many equations connections have: no more than there are pairs that they join.
#![tactic(auto)]

mod law;

pub use law::count_law;
