/// When a use is taken at a moment.
#[derive(Clone, Copy, Debug, PartialEq, Eq)]
pub enum Stage {
    /// Before all clocks: it rests on none.
    Pure,
    /// With the base partition of this number.
    Partition(u32),
    /// After all clocks: it is unclocked, and rests on one.
    Waiting,
}
