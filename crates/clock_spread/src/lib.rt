//! How the clocks of classes spread from the given ones over relations with a given factor, round by round.
#![tactic(auto)]

mod least;
mod offers;
mod onward;
mod queue;
mod start;
mod turn;

pub use least::lesser;
pub use offers::{Found, is_factor_given};
pub use onward::{are_same, convert, is_related};
pub use start::spread;
