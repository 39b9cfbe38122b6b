ghost use Rattle.std.specs.Prelude.{◌≡◌};
ghost use Rattle.tick_plan.specs.declared.plan_end.PlanEnd.TheVariants.{NoMemory};

use std::alloc::AllocError;
use std::error::Error;
use std::fmt;

/// Why there is no plan: the rows and ticks up to the stop are more than 67,108,864, or memory was refused.
#[derive(Clone, Copy, Debug)]
pub enum PlanEnd {
    TooMany { count: u128 },
    NoMemory,
}

impl fmt::Display for PlanEnd {
    fn fmt<W: fmt::Write>(&self, f: &mut fmt::Formatter<W>) -> fmt::Result {
        match self {
            PlanEnd::TooMany { count } => write!(f, "{count} rows and ticks are too many"),
            PlanEnd::NoMemory => write!(f, "no memory"),
        }
    }
}

impl Error for PlanEnd {}

impl From<AllocError> for PlanEnd {
    ghost use Rattle.std.specs.Prelude.{◌≡◌};
    ghost use Rattle.tick_plan.specs.declared.plan_end.PlanEnd.TheVariants.{NoMemory};

    ghost from_gives = { λ error end. end ≡ NoMemory };

    fn from(_error: AllocError) -> PlanEnd {
        PlanEnd::NoMemory
    }
}
