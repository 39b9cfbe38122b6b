//! One clock from another.
ghost use Rattle.std.specs.Prelude.{◌≡◌, ◌^◌, ◌<◌, ◌↔◌, IfSome, IsNone, IsTrue};
ghost use Rattle.rational_time.specs.Fraction.{ArePartsBelow};
ghost use Rattle.clock_terms.specs.Position.{IsAt, at_ratio, at_signed, part, progression_of_grid, AreSame, IsPastLimit, IsTooFine, IsFine};
ghost use Rattle.clock_terms.specs.Asked.{Asks, converted, IsGiven};
ghost use Rattle.clock_spread.specs.private.MovedStarts.{moved_start, IsFineStart, HaveSameParts};

use clock_terms::Grid;
use flat_model::Conversion;
use rational_time::kinds::Moved;
use rational_time::{Ratio, moved, scaled};

/// Whether both parts are below the limit of clocks.
fn is_fine(ratio: Ratio) -> bool
    ensures { IsTrue result ↔ ArePartsBelow (2 ^ 40) ratio }
{
    ratio.num() < 1 << 40 && ratio.den() < 1 << 40
}

/// The part `times/over` of a period. None comes exactly where it reaches the limit.
fn part_of(period: Ratio, times: u32, over: u32) -> Option<Ratio>
    requires { 0 < over }
    ensures value { IfSome result (λ p. IsAt (at_ratio p) (part times over (at_ratio period))) }
    ensures fine { IfSome result (ArePartsBelow (2 ^ 40)) }
    ensures none { IsNone result ↔ IsPastLimit (2 ^ 40) (part times over (at_ratio period)) }
{
    let period = scaled(period, times, over)?;
    if is_fine(period) { Some(period) } else { None }
}

/// The start that is later by `period*k/r`, or earlier where `back` is true. None comes exactly where it reaches the limit.
fn start_by(grid: Grid, k: u32, r: u32, back: bool) -> Option<Moved>
    requires fine { IsFine (2 ^ 40) grid }
    requires given { 0 < r }
    ensures value { IfSome result (λ m. IsAt (at_signed m.negative m.start) (moved_start grid.start grid.negative grid.period k r back)) }
    ensures fine { IfSome result IsFineStart }
    ensures none { IsNone result ↔ IsPastLimit (2 ^ 40) (moved_start grid.start grid.negative grid.period k r back) }
{
    let start = moved(grid.start, grid.negative, grid.period, k, r, back)?;
    if is_fine(start.start) {
        Some(start)
    } else {
        None
    }
}

fn with_period(grid: Grid, period: Ratio) -> Grid
    ensures { result ≡ record { site = grid.site; period = period; start = grid.start; negative = grid.negative } }
{
    Grid { period, ..grid }
}

fn with_start(grid: Grid, moved: Moved) -> Grid
    ensures { result ≡ record { site = grid.site; period = grid.period; start = moved.start; negative = moved.negative } }
{
    Grid {
        start: moved.start,
        negative: moved.negative,
        ..grid
    }
}

/// The clock that a given conversion gives. None comes exactly where a part of it reaches the limit.
pub fn convert(grid: Grid, by: Conversion) -> Option<Grid>
    requires fine { IsFine (2 ^ 40) grid }
    requires given { IsGiven by }
    ensures value { IfSome result (λ g. AreSame (progression_of_grid g) (converted by (progression_of_grid grid))) }
    ensures fine { IfSome result (IsFine (2 ^ 40)) }
    ensures none { IsNone result ↔ IsTooFine (2 ^ 40) (converted by (progression_of_grid grid)) }
{
    match by {
        Conversion::Sub(factor) => Some(with_period(grid, part_of(grid.period, factor, 1)?)),
        Conversion::Super(factor) => Some(with_period(grid, part_of(grid.period, 1, factor)?)),
        Conversion::Shift(k, r) => Some(with_start(grid, start_by(grid, k, r, false)?)),
        Conversion::Back(k, r) => Some(with_start(grid, start_by(grid, k, r, true)?)),
        Conversion::NoClock => unreachable!(),
    }
}

/// Whether two fractions have the same parts.
fn is_same_ratio(a: Ratio, b: Ratio) -> bool
    ensures { IsTrue result ↔ HaveSameParts a b }
{
    a.num() == b.num() && a.den() == b.den()
}

/// Whether two clocks are one.
pub fn are_same(a: Grid, b: Grid) -> bool
    requires a { IsFine (2 ^ 40) a }
    requires b { IsFine (2 ^ 40) b }
    ensures { IsTrue result ↔ AreSame (progression_of_grid a) (progression_of_grid b) }
{
    if a.site != b.site {
        return false;
    }
    if a.negative != b.negative {
        return false;
    }
    is_same_ratio(a.period, b.period) && is_same_ratio(a.start, b.start)
}

/// Whether what a given conversion asks of the clocks of its result and of its argument holds.
pub fn is_related(derived: Grid, argument: Grid, by: Conversion) -> bool
    requires derived { IsFine (2 ^ 40) derived }
    requires argument { IsFine (2 ^ 40) argument }
    requires given { IsGiven by }
    ensures { IsTrue result ↔ Asks by (progression_of_grid derived) (progression_of_grid argument) }
{
    match convert(argument, by) {
        Some(grid) => are_same(grid, derived),
        None => false,
    }
}
