//! How a window of moments ends that were run one behind the other, in whatever way.
//!
//! Each function is a law: it does nothing, and its contract ties what was run of each moment to how the run goes on.
#![tactic(auto)]

mod law;

pub use law::{alone_law, fails_law, rows_law, window_law};
