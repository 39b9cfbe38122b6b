//! Parts of expressions that are being read.
use crate::tree::{Arg, Causality, Element, Path, TreeEq, TreeExpr, Variability};
use sync_values::{ChainOp, List};

/// A chain so far: its parts, the operators between them and the end of the last part.
#[derive(Drop)]
pub struct Links {
    pub parts: List<TreeExpr>,
    pub ops: List<ChainOp>,
    pub end: u32,
}

/// An if-expression so far: its conditions, and as many branches.
#[derive(Drop)]
pub struct Branches {
    pub conditions: List<TreeExpr>,
    pub branches: List<TreeExpr>,
}

/// The arguments of a call and the end of their closing bracket.
#[derive(Drop)]
pub struct Arguments {
    pub all: List<TreeExpr>,
    pub end: u32,
}

/// A modification, which may be empty.
#[derive(Drop)]
pub struct Modification {
    pub args: List<Arg>,
    pub binding: Option<TreeExpr>,
}

/// What the components of one element have in common.
#[derive(Drop)]
pub struct Declared {
    pub variability: Variability,
    pub causality: Causality,
    pub base: Path,
}

/// What stands in a class so far.
#[derive(Drop)]
pub struct Body {
    pub elements: List<Element>,
    pub equations: List<TreeEq>,
}
