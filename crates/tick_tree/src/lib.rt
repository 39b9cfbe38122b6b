//! The least of many keys, in a tree: the least is at the root, and a key that changes takes steps in the logarithm of
//! their number. Nothing but `build` takes memory.
//!
//! The nodes of a tree over n keys are 1 to 2n - 1 of a list of 2n numbers: node i is the lesser of nodes 2i and 2i + 1,
//! and key j is node n + j. Number 0 of the list has no meaning.
#![tactic(auto)]

mod building;
mod moving;
mod tree;

pub use building::build;
pub use moving::advance;
