//! Values of the clocked profile, the exact operators on them, and the small collections that contracts see as lists.
#![tactic(auto)]

mod arithmetic;
mod list;
mod no_memory;
mod relation;
mod text;
mod value;

pub use arithmetic::{abs, add, div, greatest, least, modulo, mul, neg, rem, sub};
pub use list::List;
pub use no_memory::NoMemory;
pub use relation::relate;
pub use text::Text;
pub use value::{ChainOp, Fail, Rel, Value};
