//! The instances of a class: the variables and the equations of all its components in flat order, and what the outermost
//! modifications give each variable.
#![tactic(auto)]

mod component;
mod given;
mod item;
mod modifier;
mod modifiers;
mod starts;
mod walk;

pub use component::{inside, variable};
pub use item::{Given, Item, Variable};
pub use modifiers::Modifiers;
pub use starts::start_of;
pub use walk::instances;
