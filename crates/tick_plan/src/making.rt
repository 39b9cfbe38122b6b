ghost use Rattle.std.specs.Prelude.{◌≡◌, ℕ, ◌+◌, ◌*◌, ◌/◌, ◌<◌, ◌≤◌, ◌↔◌, ◌^◌, length, get_or, min, IfOk};
ghost use Rattle.std.specs.Int.{◌∣◌};
ghost use Rattle.rational_time.specs.Fraction.{second_limit};
ghost use Rattle.tick_plan.specs.private.Axis.{IsLimit};
ghost use Rattle.tick_plan.specs.private.Grid.{CountsTo};

use rational_time::Ratio;

/// The first number of units past the stop.
pub(crate) fn limit_of(stop: Ratio, den: u64) -> u64
    requires early { stop.num < second_limit * stop.den }
    requires grain { den < 2 ^ 40 }
    ensures limit { IsLimit den stop result }
    ensures small { result < 2 ^ 61 }
{
    let last = u128::from(stop.num()) * u128::from(den) / u128::from(stop.den());
    last as u64 + 1
}

/// How many units a value has, and no more than the limit.
pub(crate) fn units_of(value: Ratio, den: u64, limit: u64) -> u64
    requires { value.den ∣ den }
    ensures { CountsTo den limit value result }
{
    let units = u128::from(value.num()) * u128::from(den / value.den());
    if units < u128::from(limit) {
        units as u64
    } else {
        limit
    }
}
