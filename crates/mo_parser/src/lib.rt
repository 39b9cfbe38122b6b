//! Trees of model texts.
#![tactic(auto)]

mod grammar;
mod span;
mod syntax;
mod tree;

pub use span::spelled;
pub use syntax::{LEVELS, ParseEnd, SyntaxCode, fault_law, one_tree, parse};
pub use tree::{
    Arg, Causality, ClassDef, ClassKind, Element, Path, Short, Span, Tree, TreeEq, TreeExpr,
    TreeNode, Variability,
};
