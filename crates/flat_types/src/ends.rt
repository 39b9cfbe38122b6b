ghost use Rattle.std.specs.Prelude.{◌≡◌};

use std::alloc::{AllocError, AllocFailed};
use std::error::Error;
use std::fmt;

/// A rule of types and calls.
#[derive(Clone, Copy, Debug, PartialEq, Eq)]
pub enum TypeCode {
    /// Types differ from those that an operator, a call or an equation takes.
    Y1,
    /// An argument that must be the name of a component is none; or that of `hold` or of a conversion is an input.
    Y2,
    /// An unknown function, or a number of arguments that it does not take.
    Y3,
    /// A counter, factor or resolution that is no expression of constants with a value in its range.
    Y4,
    /// What the profile leaves out: quotients, powers, `time`, `interval` outside its form, a clause on a Boolean.
    Y5,
}

/// Why a model has no types.
#[derive(Clone, Copy, Debug, PartialEq, Eq)]
pub enum TypeEnd {
    /// The first equation that breaks a rule, and the first rule that it breaks.
    Fault { code: TypeCode, equation: u32 },
    NoMemory,
}

impl fmt::Display for TypeEnd {
    fn fmt<W: fmt::Write>(&self, f: &mut fmt::Formatter<W>) -> fmt::Result {
        match self {
            TypeEnd::Fault { code, equation } => write!(
                f,
                "{code:?} at equation {equation}, counted from 0"
            ),
            TypeEnd::NoMemory => write!(f, "no memory"),
        }
    }
}

impl Error for TypeEnd {}

impl From<AllocError> for TypeEnd {
    ghost use Rattle.flat_types.specs.declared.ends.TypeEnd.{TypeEnd};

    ghost from_gives = { λ _ end. end ≡ TypeEnd.NoMemory };

    fn from(_error: AllocError) -> TypeEnd {
        TypeEnd::NoMemory
    }
}

impl<T> From<AllocFailed<T>> for TypeEnd
where
    T: Drop,
{
    ghost use Rattle.flat_types.specs.declared.ends.TypeEnd.{TypeEnd};

    ghost from_gives = { λ _ end. end ≡ TypeEnd.NoMemory };

    fn from(_error: AllocFailed<T>) -> TypeEnd {
        TypeEnd::NoMemory
    }
}
