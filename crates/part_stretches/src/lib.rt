//! The equations of a base partition at one moment, as stretches of prepared code: those whose classes tick run one
//! after the other, up to the first equation that fails.
#![tactic(auto)]

mod law;
mod running;

pub use law::part_law;
pub use running::{ClassStretch, PartFailing, run_stretches};
