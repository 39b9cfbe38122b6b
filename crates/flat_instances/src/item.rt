//! What instances have.
use class_scopes::TypeName;
use mo_parser::{Element, TreeExpr};
use sync_values::Text;

/// An expression that a modification gives, with the length of what stands before the names beside it.
#[derive(Clone, Copy)]
pub struct Given<'a> {
    pub scope: usize,
    pub expr: &'a TreeExpr,
}

/// A variable of an instance, with what the outermost modifications give to its binding and to its start.
#[derive(Drop)]
pub struct Variable<'a> {
    pub name: Text,
    pub element: &'a Element,
    pub type_name: TypeName,
    pub binding: Option<Given<'a>>,
    pub start: Option<Given<'a>>,
}

/// What an instance has.
#[derive(Drop)]
pub enum Item<'a> {
    Declared(Variable<'a>),
    /// The equations of a class, and what stands before the names of the instance.
    Own(Text, usize),
}
