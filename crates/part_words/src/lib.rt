//! The words of a base partition's cells at the start of a moment: for each key the last value of a name, a value or last value
//! at the moment before, a constant, or what is shown of a clock.
#![tactic(auto)]

mod law;
mod word;
mod writing;

pub use law::words_law;
pub use writing::fill_words;
