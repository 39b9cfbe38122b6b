//! The parameters of a model and what its variables need, from all that its instances have.
#![tactic(auto)]

mod given;
mod model;
mod table;
mod values;

pub use model::{needs, parameters};
pub use table::parameter_table;
pub use values::{ModelValues, model_values};
