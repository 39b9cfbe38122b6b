//! A share of a model over the moments of a window, by itself or beside others.
#![tactic(auto)]

mod owned;
mod window;

pub use owned::{KeptUses, Share, run_shares};
pub use window::{Ran, run_share};
