use flat_model::Fault;

/// How a call of `advance` ends.
#[derive(Clone, Copy)]
pub enum Advance {
    /// The next instant has a row.
    Row,
    /// The first arithmetic fault of the run comes before the next row.
    Fault(Fault),
    /// No moment is left.
    End,
}
