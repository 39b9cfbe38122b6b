//! The expressions and equations of instances as those of a flat model whose types are not known yet.
#![tactic(auto)]

mod equations;
mod expressions;
mod items;
mod nodes;
mod spellings;

pub use expressions::Lowering;
pub use items::Lowered;
