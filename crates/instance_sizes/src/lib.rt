//! How large a model is: the items of its instances that have a part in it, where it has not more names, equations and source
//! tokens than the limits.
#![tactic(auto)]

mod law;
mod names;
mod pairs;
mod sized;

pub use law::instance_sizes_law;
pub use sized::sized_instances;
