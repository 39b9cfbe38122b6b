use std::alloc::AllocError;
use std::error::Error;
use std::fmt;

/// Why the clocks make no clocking.
#[derive(Clone, Copy, Debug)]
pub enum CheckEnd {
    /// A factor that is to be inferred is not whole, or the starts differ.
    Factor { equation: u32 },
    /// A clock in seconds starts before 0.
    EarlyStart { class: u32 },
    /// The shift of a clock on the risings of a site is below 0 or not whole.
    NotOnEvent { class: u32 },
    /// The factor of a clock on the risings of a site is not whole.
    EventFactor { class: u32 },
    /// A `hold` stands in the class of an event condition.
    HoldInCondition { equation: u32 },
    NoMemory,
}

impl fmt::Display for CheckEnd {
    fn fmt<W: fmt::Write>(&self, f: &mut fmt::Formatter<W>) -> fmt::Result {
        match self {
            CheckEnd::Factor { equation } => write!(
                f,
                "no factor at equation {equation}, counted from 0"
            ),
            CheckEnd::EarlyStart { class } => write!(f, "class {class} starts before 0"),
            CheckEnd::NotOnEvent { class } => write!(
                f,
                "the shift of class {class} is not on its event"
            ),
            CheckEnd::EventFactor { class } => write!(
                f,
                "the factor of class {class} is not whole"
            ),
            CheckEnd::HoldInCondition { equation } => write!(
                f,
                "a hold at equation {equation}, counted from 0"
            ),
            CheckEnd::NoMemory => write!(f, "no memory"),
        }
    }
}

impl Error for CheckEnd {}

impl From<AllocError> for CheckEnd {
    ghost use Rattle.std.specs.Prelude.{◌≡◌};
    ghost use Rattle.clock_check.specs.declared.kinds.CheckEnd.TheVariants.{NoMemory};

    ghost from_gives = { λ _ end. end ≡ NoMemory };

    fn from(_error: AllocError) -> Self {
        CheckEnd::NoMemory
    }
}
