//! The order of classes in which parts come before wholes: classes that have themselves inside, components that stand too
//! deep, and classes that have nothing in them.
#![tactic(auto)]

mod content;
mod depth;
mod law;
mod order;
mod ranks;

pub use content::filled;
pub use depth::too_deep;
pub use law::class_order_law;
pub use order::class_order;
