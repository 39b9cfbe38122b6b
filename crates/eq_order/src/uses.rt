use eq_orient::kinds::Spine;

/// An equation that gives a value to a name, and the side on which the name stands in it.
#[derive(Clone, Copy)]
pub struct Use {
    pub equation: u32,
    pub name: u32,
    pub spine: Spine,
}
