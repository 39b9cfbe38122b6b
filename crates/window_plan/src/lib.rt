//! Moments of a run planned ahead: their inputs, the names that rest on no clock, what the sites answer, and which classes
//! tick.
#![tactic(auto)]

mod moment;
mod planning;
mod taking;
mod window;

pub use moment::PlannedMoment;
pub use taking::PureUses;
pub use window::WindowPlan;
