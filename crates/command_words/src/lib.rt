//! The words of the command line, `MODEL --stop T [--table FILE] [--class NAME] [--workers N] [--mode MODE]`.
//!
//! `clap` reads the words by its own definition of one simple command, and this crate says what the values mean.
#![tactic(auto)]

mod arguments;
mod choose;
mod command;
mod members;
mod mode;
mod reading;
mod stop;
mod workers;

pub use command::{Command, Mode, UsageFault, WordsEnd};
pub use reading::{one_answer, read_words};
