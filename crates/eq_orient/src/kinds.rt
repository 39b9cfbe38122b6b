//! Types whose names are those of functions of this crate.

/// The side of an equation on which a name stands that it can be solved for.
#[derive(Clone, Copy)]
pub struct Spine {
    pub left: bool,
}
