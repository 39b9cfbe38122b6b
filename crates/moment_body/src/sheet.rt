use sync_values::{List, Value};

/// What a moment is written on.
#[derive(Drop)]
pub struct Sheet {
    /// The numbers of the names that are columns.
    pub columns: List<u32>,
    /// The values of the moment that was run last, by the numbers of names.
    pub now: Vec<Option<Value>>,
    /// What the conditions of the sites gave at it.
    pub answers: Vec<Option<bool>>,
    /// Whether they were false at it.
    pub low: Vec<bool>,
    /// The values of the columns at it.
    pub row: Vec<Option<Value>>,
}
