use crate::clock::ClockExpr;
use crate::equation::Equation;
use sync_values::{List, Text, Value};

#[derive(Clone, Copy, PartialEq, Eq)]
pub enum NameKind {
    Integer,
    Boolean,
    Clock,
}

/// A name of a flat model, with its path from the chosen class in dots.
#[derive(Drop)]
pub struct FlatName {
    /// At most 4,127 bytes.
    pub text: Text,
    pub kind: NameKind,
    pub input: bool,
    /// The value before the first tick, of the name's type. A Clock has none, and this field no meaning there.
    pub start: Value,
}

/// Names, equations and the clocks of `when` clauses, each in flat order.
///
/// Source: MLS 3.6, chapter 5, "Flattening Process", in this project's profile.
#[derive(Drop)]
pub struct FlatModel {
    pub names: List<FlatName>,
    pub equations: List<Equation>,
    pub clauses: List<ClockExpr>,
}
