use std::error::Error;
use std::fmt;

/// A value of an Integer or Boolean expression.
#[derive(Clone, Copy, Debug, PartialEq, Eq)]
pub enum Value {
    Int(i64),
    Bool(bool),
}

/// Why an expression has no value.
#[derive(Clone, Copy, Debug, PartialEq, Eq)]
pub enum Fail {
    /// A divisor is 0.
    Divide,
    /// A result exists and does not fit 64 bits.
    TooLarge,
}

impl fmt::Display for Fail {
    fn fmt<W: fmt::Write>(&self, f: &mut fmt::Formatter<W>) -> fmt::Result {
        match self {
            Fail::Divide => write!(f, "a divisor is 0"),
            Fail::TooLarge => write!(f, "a result does not fit 64 bits"),
        }
    }
}

impl Error for Fail {}

/// A relation between two Integers or two Booleans, with false below true.
#[derive(Clone, Copy, Debug, PartialEq, Eq)]
pub enum Rel {
    Less,
    LessEq,
    Greater,
    GreaterEq,
    Equal,
    Unequal,
}

/// An operator between two parts of a chain.
#[derive(Clone, Copy, Debug, PartialEq, Eq)]
pub enum ChainOp {
    Plus,
    Minus,
    Times,
    Over,
    And,
    Or,
}
