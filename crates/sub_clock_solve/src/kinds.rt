use std::alloc::AllocError;
use std::error::Error;
use std::fmt;

/// Why the clocks of the rounds are not those of a model.
#[derive(Clone, Copy, Debug)]
pub enum SolveEnd {
    /// A clocked class gets no clock in any round.
    Unknown { class: u32 },
    /// A part of a clock, or the least common denominator of the clocks in seconds, reaches the limit.
    TooFine { class: u32 },
    /// A constructor or a relation with a given factor does not hold.
    Conflict { equation: u32 },
    NoMemory,
}

impl fmt::Display for SolveEnd {
    fn fmt<W: fmt::Write>(&self, f: &mut fmt::Formatter<W>) -> fmt::Result {
        match self {
            SolveEnd::Unknown { class } => write!(f, "class {class} has no clock"),
            SolveEnd::TooFine { class } => write!(f, "the clock of class {class} is too fine"),
            SolveEnd::Conflict { equation } => write!(
                f,
                "a conflict at equation {equation}, counted from 0"
            ),
            SolveEnd::NoMemory => write!(f, "no memory"),
        }
    }
}

impl Error for SolveEnd {}

impl From<AllocError> for SolveEnd {
    ghost use Rattle.std.specs.Prelude.{◌≡◌};
    ghost use Rattle.sub_clock_solve.specs.declared.kinds.SolveEnd.TheVariants.{NoMemory};

    ghost from_gives = { λ _ end. end ≡ NoMemory };

    fn from(_error: AllocError) -> Self {
        SolveEnd::NoMemory
    }
}
