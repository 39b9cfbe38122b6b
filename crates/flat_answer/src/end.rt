//! How flattening ends without a model.
use class_scopes::NameCode;
use flat_model::Place;
use std::alloc::AllocError;
use std::error::Error;
use std::fmt;

/// Why a class has no flat model.
#[derive(Debug, Drop)]
pub enum FlattenEnd {
    /// The first broken rule and its place: the line and the column of a byte of the text, and of N6 and N7 the flat name of
    /// a variable.
    Fault { code: NameCode, place: Place },
    /// Memory was refused.
    NoMemory,
}

impl fmt::Display for FlattenEnd {
    fn fmt<W: fmt::Write>(&self, f: &mut fmt::Formatter<W>) -> fmt::Result {
        match self {
            FlattenEnd::Fault { code, place } => write!(f, "{code:?} at {place:?}"),
            FlattenEnd::NoMemory => write!(f, "no memory"),
        }
    }
}

impl Error for FlattenEnd {}

impl From<AllocError> for FlattenEnd {
    ghost use Rattle.std.specs.Prelude.{◌≡◌};
    ghost use Rattle.flat_answer.specs.declared.end.FlattenEnd.{FlattenEnd};

    ghost from_gives = { λ _ end. end ≡ FlattenEnd.NoMemory };

    fn from(_error: AllocError) -> Self {
        FlattenEnd::NoMemory
    }
}
