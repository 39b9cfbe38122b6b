//! The cells of a base partition: each is for one key, and its number is the place of the key among all keys.
#![tactic(auto)]

mod key;
mod keys;
mod sight;

pub use key::CellKey;
pub use keys::{CellKeys, NoCell};
pub use sight::{Sight, word_of};
