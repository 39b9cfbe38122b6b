//! What a command is answered: its status, and what it puts on out and err, as a chain of the layers' relations; and
//! the law that it is one.
#![tactic(auto)]

mod law;
mod status;

pub use law::{call_law, one_answer_law, printed_law};
pub use status::Status;
