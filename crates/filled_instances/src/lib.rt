//! The instances of a class without those that have nothing in them: the variables, and the equations of classes that have
//! some, in flat order.
#![tactic(auto)]

mod law;
mod walk;

pub use law::filled_instances_law;
pub use walk::filled_instances;
