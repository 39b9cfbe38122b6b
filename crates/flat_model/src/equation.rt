use crate::clock::ClockExpr;
use crate::expression::Expr;

/// An equation between two values, or between two clocks. In a `when` clause it carries the clause's number.
#[derive(Drop)]
pub enum Equation {
    Valued {
        left: Expr,
        right: Expr,
        clause: Option<u32>,
    },
    Clocks {
        left: ClockExpr,
        right: ClockExpr,
        clause: Option<u32>,
    },
}
