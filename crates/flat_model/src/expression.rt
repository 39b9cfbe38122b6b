use crate::clock::{ClockExpr, Conversion};
use sqlite_items::Boxed;
use sync_values::{ChainOp, List, Rel, Value};

/// A function that an expression may call.
#[derive(Clone, Copy, Debug)]
pub enum Fun {
    Div,
    Mod,
    Rem,
    Abs,
    Min,
    Max,
}

/// An expression over the names of a flat model.
///
/// Source: MLS 3.6, chapter 3, "Operators and Expressions", and chapter 16, "Clocks and Clocked Variables",
/// in this project's profile.
#[cycle(expr)]
#[derive(Drop)]
pub enum Expr {
    Const(Value),
    /// A name that stands bare.
    Read(u32),
    /// Parts with an operator between each and the next, grouped to the left. There are at least two parts, one
    /// operator fewer than parts, and the operators are of one kind: sums and differences, products and quotients,
    /// `and`, or `or`.
    Chain(List<Expr>, List<ChainOp>),
    Relation(Rel, Boxed<Expr>, Boxed<Expr>),
    Neg(Boxed<Expr>),
    Not(Boxed<Expr>),
    /// At least one condition, as many branches as conditions, and the branch of `else`.
    If(List<Expr>, List<Expr>, Boxed<Expr>),
    Apply(Fun, List<Expr>),
    /// The value at the tick before.
    Previous(u32),
    /// Whether the clock of the equation, which is that of the name where one is given, ticks for the first time.
    FirstTick(Option<u32>),
    /// `integer(interval(u) * k)`: the whole part of the clock's interval in seconds times `k`.
    IntervalTimes(Option<u32>, u32),
    /// The last value of a clocked name, read in an unclocked equation.
    Hold(u32),
    /// The last value of a clocked name, read on another clock.
    Convert(Conversion, u32),
    /// The left limit of an unclocked expression.
    Sample(Boxed<Expr>, Option<ClockExpr>),
}
