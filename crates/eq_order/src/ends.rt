use flat_model::Place;
use std::alloc::AllocError;
use std::error::Error;
use std::fmt;

/// A rule that a model with an order of its equations keeps.
#[derive(Clone, Copy, Debug, PartialEq, Eq)]
pub enum OrderCode {
    /// All names are reached, and an equation is unused.
    Q1,
    /// The unreached names outnumber the equations that read one.
    Q2,
    /// An equation has exactly one unreached name, and is not solvable for it.
    Q3,
    /// The unreached names read each other.
    Q4,
}

/// Why there is no order.
#[derive(Debug, Drop)]
pub enum OrderEnd {
    Fault { code: OrderCode, place: Place },
    NoMemory,
}

impl fmt::Display for OrderEnd {
    fn fmt<W: fmt::Write>(&self, f: &mut fmt::Formatter<W>) -> fmt::Result {
        match self {
            OrderEnd::Fault { code, place } => write!(f, "{code:?} at {place:?}"),
            OrderEnd::NoMemory => write!(f, "no memory"),
        }
    }
}

impl Error for OrderEnd {}

impl From<AllocError> for OrderEnd {
    ghost use Rattle.std.specs.Prelude.{◌≡◌};
    ghost use Rattle.eq_order.specs.declared.ends.OrderEnd.TheVariants.{NoMemory};

    ghost from_gives = { λ _ end. end ≡ NoMemory };

    fn from(_error: AllocError) -> OrderEnd {
        OrderEnd::NoMemory
    }
}
