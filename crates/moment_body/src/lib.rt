//! A moment of a run, from its inputs to its row or its fault, over any way to step its uses.
#![tactic(auto)]

mod fault;
mod model;
mod moments;
mod sheet;
mod steps;

pub use model::ClockedModel;
pub use moments::Moments;
pub use sheet::Sheet;
pub use steps::Steps;
