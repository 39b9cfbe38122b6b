//! Every text that is printed: the trace line by line, the lines of refusals and faults, and the texts of a flat
//! model and of its clocks.
//!
//! Only `reserve` and the two texts take memory, so that a run that has begun never ends for want of it.
#![tactic(auto)]

mod code;
mod err_line;
mod expr;
mod line;
mod model_text;
mod piece;
mod put;
mod ticks;
mod words;

pub use code::Code;
pub use err_line::{ErrLine, fault, refusal};
pub use line::{Line, reserve};
pub use model_text::flat_text;
pub use ticks::clocks_text;
