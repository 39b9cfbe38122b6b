//! Rules of the components and connects of classes.
#![tactic(auto)]

mod connects;
mod refused;

pub use connects::unfit_connect;
pub use refused::refused_type;
