//! The code of the equations of a base partition, by the cells of keys.
//!
//! What a name's cell is stands in no table of all names of the model: it is looked up among the keys of the base partition,
//! so that code is made in proportion to the partition's own equations.
#![tactic(auto)]

mod emitting;
mod stretch;
mod table;

pub use stretch::prepare_stretch;
pub use table::KeyTable;
