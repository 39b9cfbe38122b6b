use sqlite_items::Boxed;
use sync_values::{ChainOp, List, Rel, Value};

/// A piece of the text: the bytes from `at` up to, not including, `end`, counted from 0.
#[derive(Clone, Copy, Debug, PartialEq, Eq)]
pub struct Span {
    pub at: u32,
    pub end: u32,
}

/// The tree of a model text.
#[derive(Drop)]
pub struct Tree {
    /// The classes in their order in the text.
    pub classes: List<ClassDef>,
}

/// A class of the file. Source: MLS 3.6, chapter 4, "Class Declarations", in this project's profile.
#[derive(Drop)]
pub struct ClassDef {
    pub kind: ClassKind,
    /// The name behind the class's first word.
    pub name: Span,
    /// The declared components in their order, those of all sections together.
    pub elements: List<Element>,
    /// The equations in their order, those of all sections together.
    pub equations: List<TreeEq>,
    /// What stands behind the `=` of a short connector; elements and equations are then empty.
    pub short: Option<Short>,
}

/// The first word of a class.
#[derive(Clone, Copy, Debug, PartialEq, Eq)]
pub enum ClassKind {
    Model,
    Block,
    Class,
    Connector,
}

/// A short connector, `connector C = input Integer(start = 1)`.
#[derive(Drop)]
pub struct Short {
    pub causality: Causality,
    /// The type that it stands for.
    pub base: Path,
    pub args: List<Arg>,
}

/// One declared component; a declaration of several gives one for each, with its prefixes and type name.
#[derive(Drop)]
pub struct Element {
    pub variability: Variability,
    pub causality: Causality,
    /// The type name.
    pub base: Path,
    pub name: Span,
    /// The modification in brackets.
    pub args: List<Arg>,
    /// The value behind `=`.
    pub binding: Option<TreeExpr>,
}

/// `parameter`, `constant`, or neither; `discrete` is read and dropped.
#[derive(Clone, Copy, Debug, PartialEq, Eq)]
pub enum Variability {
    Plain,
    Parameter,
    Constant,
}

/// `input`, `output`, or neither.
#[derive(Clone, Copy, Debug, PartialEq, Eq)]
pub enum Causality {
    Plain,
    Input,
    Output,
}

/// A name with its parts between dots, at least one.
#[derive(Drop)]
pub struct Path {
    pub parts: List<Span>,
}

/// One argument of a modification: `name(args) = binding`.
#[cycle(arg)]
#[derive(Drop)]
pub struct Arg {
    pub name: Path,
    pub args: List<Arg>,
    pub binding: Option<TreeExpr>,
}

/// An equation, or a clause of equations on one clock.
#[cycle(equation)]
#[derive(Drop)]
pub enum TreeEq {
    /// Left side and right side.
    Equal(TreeExpr, TreeExpr),
    /// The two connectors of `connect(a, b)`.
    Connect(Path, Path),
    /// The clock of `when` and the equations of its clause, each an `Equal`.
    When(TreeExpr, List<TreeEq>),
}

/// An expression. Its span runs from the first byte of its first token to the end of its last,
/// its own round brackets and leading sign among them.
#[cycle(expression)]
#[derive(Drop)]
pub struct TreeExpr {
    pub node: TreeNode,
    pub span: Span,
}

/// What an expression is made of. Round brackets and a leading plus leave no node of their own.
/// Source: MLS 3.6, chapter 3, "Operators and Expressions", in this project's profile.
#[cycle(expression)]
#[derive(Drop)]
pub enum TreeNode {
    Const(Value),
    Name(Path),
    /// A function and its arguments.
    Call(Path, List<TreeExpr>),
    /// At least two parts with one operator fewer, all of one kind, grouped to the left.
    Chain(List<TreeExpr>, List<ChainOp>),
    Relation(Rel, Boxed<TreeExpr>, Boxed<TreeExpr>),
    Neg(Boxed<TreeExpr>),
    Not(Boxed<TreeExpr>),
    /// Base and exponent.
    Power(Boxed<TreeExpr>, Boxed<TreeExpr>),
    /// The conditions of `if` and of each `elseif`, their branches, and that of `else`.
    If(List<TreeExpr>, List<TreeExpr>, Boxed<TreeExpr>),
}
