use crate::course::Course;

/// A course with the ticks of its clocks counted in units of `1/den`. `nodes` is a tree over the next ticks, with one
/// leaf for all classes of one clock, and `steps` has the period of each leaf; `limit` is the first number of units past
/// the stop, and no key and no step is above it.
#[derive(Drop)]
pub struct Axis {
    pub(crate) course: Course,
    pub(crate) den: u64,
    pub(crate) limit: u64,
    pub(crate) nodes: Vec<u64>,
    pub(crate) steps: Vec<u64>,
}
