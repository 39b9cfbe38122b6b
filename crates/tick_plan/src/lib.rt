//! The moments of a run in order, and which classes tick at the one given last.
//!
//! A run has the moment before all instants, and then the instants 0, those of the rows and those of the ticks of clocks
//! in seconds, up to the stop. Ticks of Event clocks lie at rows; a plan is told of their risings.
#![tactic(auto)]

mod ahead;
mod axis;
mod common;
mod counting;
mod course;
mod fraction;
mod fraction_new;
mod fraction_plan;
mod fraction_stepping;
mod grid_new;
mod grid_plan;
mod law;
mod leaves;
mod making;
mod next_units;
mod plan_end;
mod planned;
mod starting;
mod stepping;
mod ticks;
mod traits;

pub use fraction_plan::FractionPlan;
pub use grid_plan::GridPlan;
pub use law::new_plan_law;
pub use plan_end::PlanEnd;
pub use traits::{TickSource, Ticking};

/// The plan that a run goes by.
pub type Plan = GridPlan;
