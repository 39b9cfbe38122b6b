//! Several equations as prepared code, one behind the other: they run up to the first that fails, and it is told which.
#![tactic(auto)]

mod count;
mod running;
mod stretch;

pub use count::cells_of;
pub use running::{Failing, run_lines};
pub use stretch::{Line, Stretch, prepare_lines};
