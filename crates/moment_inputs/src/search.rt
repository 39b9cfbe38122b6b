//! The row of a table whose values hold at a moment.
ghost use Rattle.std.specs.Prelude.{◌≡◌, true, count_by};
ghost use Rattle.flat_model.specs.declared.clock.Moment.TheVariants.{At};
ghost use Rattle.flat_model.specs.Moments.{IsRising, row_of};
ghost use Rattle.rational_time.specs.Fraction.{at_most};

use flat_model::Moment;
use rational_time::{Ratio, compare};
use std::cmp::Ordering;

/// Whether `a` is not after `b`.
fn is_at_most(a: Ratio, b: Ratio) -> bool
    ensures { result ≡ at_most a b }
{
    match compare(a, b) {
        Ordering::Greater => false,
        _ => true,
    }
}

/// How many times are not after an instant. They are halved at each step.
fn count_until(times: &[Ratio], at: Ratio) -> usize
    requires { IsRising times.now }
    ensures { result ≡ count_by (λ u. at_most u at) times.now }
{
    times.partition_point(|time| is_at_most(*time, at))
}

/// Whether a row is the last one not after an instant.
fn is_row(times: &[Ratio], at: Ratio, row: usize) -> bool
    requires { IsRising times.now }
    ensures { result ≡ true → row_of times.now (At at) ≡ row }
{
    if row >= times.len() || !is_at_most(times[row], at) {
        return false;
    }
    let next = row + 1;
    next >= times.len() || !is_at_most(times[next], at)
}

/// The row whose values hold at a moment: the last one not after it, and before all instants the first.
pub(crate) fn row_at(times: &[Ratio], at: Moment) -> usize
    requires { IsRising times.now }
    ensures { result ≡ row_of times.now at }
{
    match at {
        Moment::Initial => 0,
        Moment::At(at) => count_until(times, at).saturating_sub(1),
    }
}

/// The same, looked for first at the row `near` and at the one behind it.
pub(crate) fn row_near(times: &[Ratio], at: Moment, near: usize) -> usize
    requires { IsRising times.now }
    ensures { result ≡ row_of times.now at }
{
    let Moment::At(instant) = at else {
        return 0;
    };
    if is_row(times, instant, near) {
        return near;
    }
    let next = near.saturating_add(1);
    if is_row(times, instant, next) {
        return next;
    }
    row_at(times, at)
}
