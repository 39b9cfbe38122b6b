use crate::model::FlatName;
use sqlite_items::Boxed;
use sync_values::{ChainOp, List, Rel, Text, Value};

/// An expression before its types are known: calls go by their names.
#[derive(Drop)]
pub enum RawExpr {
    Const(Value),
    Name(u32),
    Call(Text, List<RawExpr>),
    Chain(List<RawExpr>, List<ChainOp>),
    Relation(Rel, Boxed<RawExpr>, Boxed<RawExpr>),
    Neg(Boxed<RawExpr>),
    Not(Boxed<RawExpr>),
    Power(Boxed<RawExpr>, Boxed<RawExpr>),
    If(List<RawExpr>, List<RawExpr>, Boxed<RawExpr>),
    Time,
}

/// An equation before its types are known, with the number of its clause.
#[derive(Drop)]
pub struct RawEq {
    pub left: RawExpr,
    pub right: RawExpr,
    pub clause: Option<u32>,
}

/// A flat model before its types are known.
#[derive(Drop)]
pub struct RawModel {
    pub names: List<FlatName>,
    pub equations: List<RawEq>,
    pub clauses: List<RawExpr>,
}
