//! Types whose names are those of functions of this crate.
use crate::uses::Use;
use sync_values::List;

/// The used equations, in the order in which they give values to names.
pub type Order = List<Use>;
