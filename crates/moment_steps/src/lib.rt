//! The steps of a moment: the uses that no clock decides of, the base partitions side by side, and the uses that wait for a
//! clock.
#![tactic(auto)]

mod gathering;
mod keeping;
mod marking;
mod opening;
mod piece;
mod staged;
mod stepping;
mod taking;
mod telling;
mod ticks;

pub use keeping::keep_left;
pub use opening::open_ticking;
pub use piece::{Piece, Scene};
pub use staged::StagedSteps;
pub use stepping::step_parts;
pub use taking::{UnclockedReads, copy_values};
pub use telling::{earlier, least_told};
pub use ticks::TickRow;
