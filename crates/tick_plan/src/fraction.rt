ghost use Rattle.std.specs.Prelude.{◌≡◌, ◌*◌, ◌<◌, ◌^◌, Some, [], ◌∷◌};
ghost use Rattle.rational_time.specs.declared.ratio.Ratio.{Ratio};
ghost use Rattle.rational_time.specs.Multiple.{HasMultipleBelow};
ghost use Rattle.flat_model.specs.declared.clock.Moment.TheVariants.{At};
ghost use Rattle.rational_time.specs.Fraction.{second_limit};
ghost use Rattle.tick_plan.specs.private.Course.{IsFirstOf, IsTickIn, IsWithin, NextIs, TickAhead, IsSameCourse};
ghost use Rattle.tick_plan.specs.private.Fraction.{IsWhole};
ghost use Rattle.tick_plan.specs.Making.{IsCountable};

use crate::common::with_clock;
use crate::course::{Course, earlier, row_after, row_ahead};
use crate::making::{limit_of, units_of};
use crate::next_units::next_units;
use flat_model::{Clock, Moment};
use rational_time::{Ratio, make};

/// The first tick of a clock after the moment given last, counted in units of the clock's own denominators.
fn first_tick(period: Ratio, start: Ratio, stop: Ratio, given: Option<Moment>) -> Option<Ratio>
    requires clock { IsCountable period start }
    requires grid { ∥ HasMultipleBelow (2 ^ 40) (1 ∷ period.den ∷ start.den ∷ []) ∥₁ }
    requires early { stop.num < second_limit * stop.den }
    requires within { ∥ IsWithin given stop ∥₁ }
    ensures { IsFirstOf (IsTickIn period start stop) given result }
{
    let den = with_clock(1, period, start);
    let limit = limit_of(stop, den);
    let first = units_of(start, den, limit);
    let step = units_of(period, den, limit);
    let units = next_units(given, den, first, step, limit);
    if units < limit {
        Some(make(units, den))
    } else {
        None
    }
}

/// The first tick after the moment given last.
fn tick_ahead(course: &Course) -> Option<Ratio>
    requires { ∥ IsWhole course.now ∥₁ }
    ensures { ∥ TickAhead course.now result ∥₁ }
{
    let mut first = None;
    for clock in course.clocks.as_slice() {
        if let Clock::Periodic { period, start } = *clock {
            first = earlier(first, first_tick(period, start, course.stop, course.given));
        }
    }
    first
}

/// The first instant after the moment given last.
pub(crate) fn next_instant(course: &Course) -> Option<Ratio>
    requires { ∥ IsWhole course.now ∥₁ }
    ensures { ∥ NextIs course.now result ∥₁ }
{
    earlier(row_ahead(course), tick_ahead(course))
}

/// Goes on past the instant that is next.
pub(crate) fn pass(course: &mut Course, t: Ratio)
    requires is { ∥ IsWhole course.old ∥₁ }
    requires next { ∥ NextIs course.old (Some t) ∥₁ }
    ensures is { ∥ IsWhole course.new ∥₁ }
    ensures given { course.new.given ≡ Some (At t) }
    ensures same { IsSameCourse course.old course.new }
{
    course.row = row_after(course, t);
    course.given = Some(Moment::At(t));
}
