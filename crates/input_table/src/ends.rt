use flat_model::Place;
use std::alloc::AllocError;
use std::error::Error;
use std::fmt;

/// A rule of the table. This project's own.
#[derive(Clone, Copy, Debug, PartialEq, Eq)]
pub enum TableCode {
    /// There is no first record, or its first field is neither `time` nor `time2`.
    I1,
    /// An input has no column.
    I2,
    /// A field of the header is no input, or repeats one before it.
    I3,
    /// A field is no value of its column.
    I4,
    /// The first time is not 0, or there is no row.
    I5,
    /// A later time is not above the one before.
    I6,
    /// A record is not as long as the header.
    I7,
}

/// Why there is no table.
#[derive(Debug, Drop)]
pub enum TableEnd {
    /// The first broken rule and its place.
    Fault { code: TableCode, place: Place },
    NoMemory,
}

impl fmt::Display for TableEnd {
    fn fmt<W: fmt::Write>(&self, f: &mut fmt::Formatter<W>) -> fmt::Result {
        match self {
            TableEnd::Fault { code, place } => write!(f, "{code:?} at {place:?}"),
            TableEnd::NoMemory => write!(f, "no memory"),
        }
    }
}

impl Error for TableEnd {}

impl From<AllocError> for TableEnd {
    ghost use Rattle.std.specs.Prelude.{◌≡◌};
    ghost use Rattle.input_table.specs.declared.ends.TableEnd.{TableEnd};

    ghost from_gives = { λ _ end. end ≡ TableEnd.NoMemory };

    fn from(_error: AllocError) -> TableEnd {
        TableEnd::NoMemory
    }
}
