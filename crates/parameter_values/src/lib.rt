//! The values of parameters and constants: those that some finite derivation gives from their bindings and starts.
#![tactic(auto)]

mod evaluate;

pub use evaluate::{Outcome, Parameter, Parameters, Values, parameter_values};
