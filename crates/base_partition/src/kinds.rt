use flat_model::Place;
use std::alloc::AllocError;
use std::error::Error;
use std::fmt;
use sync_values::NoMemory;

/// Why a model has no classes.
#[derive(Debug, Drop)]
pub enum ClassEnd {
    /// A class is marked as clocked and as unclocked.
    Mixed { place: Place },
    /// A base partition has an event constructor and another constructor that is not inferred; the equation is that of
    /// its second one.
    BaseMixed { equation: u32 },
    NoMemory,
}

impl fmt::Display for ClassEnd {
    fn fmt<W: fmt::Write>(&self, f: &mut fmt::Formatter<W>) -> fmt::Result {
        match self {
            ClassEnd::Mixed { place } => write!(f, "clocked and unclocked at {place:?}"),
            ClassEnd::BaseMixed { equation } => write!(
                f,
                "a second constructor at equation {equation}, counted from 0"
            ),
            ClassEnd::NoMemory => write!(f, "no memory"),
        }
    }
}

impl Error for ClassEnd {}

impl From<AllocError> for ClassEnd {
    ghost use Rattle.std.specs.Prelude.{◌≡◌};
    ghost use Rattle.base_partition.specs.declared.kinds.ClassEnd.{ClassEnd};

    ghost from_gives = { λ _ end. end ≡ ClassEnd.NoMemory };

    fn from(_error: AllocError) -> Self {
        ClassEnd::NoMemory
    }
}

impl From<NoMemory> for ClassEnd {
    ghost use Rattle.std.specs.Prelude.{◌≡◌};
    ghost use Rattle.base_partition.specs.declared.kinds.ClassEnd.{ClassEnd};

    ghost from_gives = { λ _ end. end ≡ ClassEnd.NoMemory };

    fn from(_error: NoMemory) -> Self {
        ClassEnd::NoMemory
    }
}
