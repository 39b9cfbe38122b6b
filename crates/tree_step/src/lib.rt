//! Uses of a moment taken one after the other, each equation solved for its name by its tree.
//!
//! Equations may be of any form and of any class; unclocked ones count at every moment. What was kept of a name, and its
//! value once it is found, stand in its cell. Unclocked ones are also taken so that an equation is evaluated only where
//! something that it reads changed.
#![tactic(auto)]

mod cell;
mod changed;
mod frame;
mod lacking;
mod taking;

pub use cell::{Cell, Standing, cell_at};
pub use changed::{Reads, take_changed};
pub use frame::ClockNow;
pub use taking::{Entry, Scene, take_uses};
