/// What a cell holds.
#[derive(Clone, Copy, PartialEq, Eq, Hash)]
pub enum CellKey {
    /// The value of a name, and its last value where its clock rests.
    Value(u32),
    /// The value of a name at the tick before, for `previous`.
    Previous(u32),
    /// The value of a name at the moment before, for `sample`.
    Left(u32),
    /// The last value of a name at the moment before, for `hold` in an argument of `sample`.
    LeftLast(u32),
    /// A constant: an Integer, or 0 or 1 for a Boolean.
    Constant(i64),
    /// Whether the clock of a class ticks for the first time.
    First(u32),
    /// The interval of the clock of a class, so many times, as a whole number.
    Interval(u32, u32),
    /// 1 where that number does not fit, else 0.
    Unfit(u32, u32),
}
