//! Broken rules of names, instances and parameters.
use std::alloc::AllocError;
use std::error::Error;
use std::fmt;

/// A rule of names, instances and parameters. This project's own codes.
#[derive(Clone, Copy, Debug, PartialEq, Eq)]
pub enum NameCode {
    /// The chosen class is not there, or a type name is unknown.
    N1,
    /// A second class or component of one name.
    N2,
    /// A name that leads to no variable, or in a connect to no component.
    N3,
    /// A class that has itself inside.
    N4,
    /// A modification that names nothing, that stands twice, or that gives a value to what has none.
    N5,
    /// A value that depends on itself.
    N6,
    /// An expression that gives no value of its declared type.
    N7,
    /// A connect whose arguments are no connectors, or have not the same members.
    N8,
    /// A component or a short connector of a type that is not allowed there.
    N9,
    /// More names, equations or tokens than the limits.
    N10,
    /// A component at depth 33 or more.
    N11,
}

/// Why the rules of a file are not kept.
#[derive(Clone, Copy, Debug)]
pub enum RuleEnd {
    /// The first broken rule, and the byte of the text where it is broken.
    Broken(NameCode, u32),
    /// Memory was refused.
    NoMemory,
}

impl fmt::Display for RuleEnd {
    fn fmt<W: fmt::Write>(&self, f: &mut fmt::Formatter<W>) -> fmt::Result {
        match self {
            RuleEnd::Broken(code, at) => write!(f, "{code:?} at byte {at}"),
            RuleEnd::NoMemory => write!(f, "no memory"),
        }
    }
}

impl Error for RuleEnd {}

impl From<AllocError> for RuleEnd {
    ghost use Rattle.std.specs.Prelude.{◌≡◌};
    ghost use Rattle.class_scopes.specs.declared.end.RuleEnd.{RuleEnd};

    ghost from_gives = { λ _ end. end ≡ RuleEnd.NoMemory };

    fn from(_error: AllocError) -> Self {
        RuleEnd::NoMemory
    }
}
