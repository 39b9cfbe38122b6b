//! Exact fractions not below 0: the instants, periods and distances of clocks.
#![tactic(auto)]

mod divisor;
mod floor;
mod fraction;
pub mod kinds;
mod ratio;
mod shift;
mod tens;
mod ticks;
mod time_text;

pub use divisor::{gcd, lcm};
pub use floor::{floor_between, floor_times, on_grid};
pub use fraction::{compare, make, plus, scaled};
pub use ratio::Ratio;
pub use shift::moved;
pub use ticks::{share_instant, ticks_until};
pub use time_text::{RatioFault, read};
