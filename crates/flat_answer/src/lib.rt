//! What flattening answers: the first broken rule of names, instances and parameters, or the flat model of a class. The
//! definitions, and the law that a class has one answer.
#![tactic(auto)]

mod end;
mod law;

pub use class_scopes::NameCode;
pub use end::FlattenEnd;
pub use law::flatten_law;
