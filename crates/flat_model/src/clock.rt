use crate::expression::Expr;
use rational_time::Ratio;
use sqlite_items::Boxed;
use sync_values::List;

/// How the clock of a result follows from that of an argument. A factor of 0 is inferred.
///
/// Source: MLS 3.6, chapter 16, "Sub-clock conversion operators".
#[derive(Clone, Copy)]
pub enum Conversion {
    /// Tick k is tick `factor * k` of the argument.
    Sub(u32),
    /// Each interval of the argument is split into `factor` equal parts.
    Super(u32),
    /// The first tick is later by `counter / resolution` of the argument's interval.
    Shift(u32, u32),
    /// The first tick is earlier by `counter / resolution` of the argument's interval.
    Back(u32, u32),
    /// Any clock; nothing ties it to the argument's.
    NoClock,
}

/// An expression for a clock.
///
/// Source: MLS 3.6, chapter 16, "Clock Constructors".
#[cycle(expr)]
#[derive(Drop)]
pub enum ClockExpr {
    Name(u32),
    Inferred,
    /// Ticks every `counter / resolution` seconds from 0 on. The counter is at least 1.
    Rational(u32, u32),
    /// Ticks where the condition becomes true.
    Event(Boxed<Expr>),
    Convert(Conversion, u32),
}

/// A clock: an axis, and for each k from 0 the position of tick k on it.
#[derive(Clone, Copy)]
pub enum Clock {
    /// Tick k is at `start + k * period` seconds.
    Periodic { period: Ratio, start: Ratio },
    /// Tick k is at the rising moment number `factor * k + shift` of the site.
    Event { site: u32, factor: u64, shift: u64 },
}

/// The clocks of a model: the class of each name and equation, `None` where unclocked, the clock and the base
/// partition of each class, and the condition of each site.
#[derive(Drop)]
pub struct Clocking {
    pub of_name: List<Option<u32>>,
    pub of_equation: List<Option<u32>>,
    pub clocks: List<Clock>,
    pub partitions: List<u32>,
    pub sites: List<Expr>,
}

/// A moment of a run: the one before all instants, or an instant in seconds.
#[derive(Clone, Copy)]
pub enum Moment {
    Initial,
    At(Ratio),
}

/// The interval of a clock at one of its ticks, in seconds.
#[derive(Clone, Copy)]
pub enum Elapsed {
    Period(Ratio),
    /// The time from the first instant to the second. Both are the same at the first tick of an event clock.
    Between(Ratio, Ratio),
}
