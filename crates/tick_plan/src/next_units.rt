ghost use Rattle.std.specs.Prelude.{◌≡◌, ◌*◌, ◌<◌, ◌≤◌, ◌^◌, Some};
ghost use Rattle.rational_time.specs.declared.ratio.Ratio.{Ratio};
ghost use Rattle.flat_model.specs.declared.clock.Moment.TheVariants.{At};
ghost use Rattle.tick_plan.specs.private.Axis.{IsKey};
ghost use Rattle.tick_plan.specs.private.Grid.{AreUnits, IsBeforeLimit};

use flat_model::Moment;
use rational_time::Ratio;

/// The first number of units after an instant that is a tick of the clock with this start and this period in units, or the
/// limit where there is none below it.
fn units_after(at: Ratio, den: u64, first: u64, step: u64, limit: u64) -> u64
    requires some { 0 < step }
    requires first { first ≤ limit }
    requires grain { 0 < den }
    requires past { at.num * den < limit * at.den }
    ensures { (period start : Ratio) → AreUnits den limit period start first step → IsKey den limit period start (Some (At at)) result step }
{
    let passed = u128::from(at.num()) * u128::from(den) / u128::from(at.den());
    let start = u128::from(first);
    if passed < start {
        return first;
    }
    let periods = (passed - start) / u128::from(step) + 1;
    let next = start + periods * u128::from(step);
    if next < u128::from(limit) {
        next as u64
    } else {
        limit
    }
}

/// The same after the moment given last. Before the first instant it is the first tick.
pub(crate) fn next_units(given: Option<Moment>, den: u64, first: u64, step: u64, limit: u64) -> u64
    requires some { 0 < step }
    requires first { first ≤ limit }
    requires grain { 0 < den }
    requires past { IsBeforeLimit given den limit }
    ensures { (period start : Ratio) → AreUnits den limit period start first step → IsKey den limit period start given result step }
{
    match given {
        None => first,
        Some(Moment::Initial) => first,
        Some(Moment::At(at)) => units_after(at, den, first, step, limit),
    }
}
