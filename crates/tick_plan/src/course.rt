ghost use Rattle.std.specs.Prelude.{◌≡◌, Some};
ghost use Rattle.rational_time.specs.Fraction.{at_most};
ghost use Rattle.flat_model.specs.declared.clock.Moment.TheVariants.{At};
ghost use Rattle.tick_plan.specs.private.Course.{AreRows, IsRow, RowAhead, NextIs, earlier_of};

use flat_model::{Clock, Moment};
use rational_time::Ratio;
use sync_values::List;

/// The clocks, the rows and the stop of a run, and where it stands: the place of the next row, and the moment given
/// last.
#[derive(Drop)]
pub struct Course {
    pub(crate) clocks: List<Clock>,
    pub(crate) times: List<Ratio>,
    pub(crate) stop: Ratio,
    pub(crate) row: usize,
    pub(crate) given: Option<Moment>,
}

/// Whether `a` is not above `b`.
pub(crate) fn is_at_most(a: Ratio, b: Ratio) -> bool
    ensures { result ≡ at_most a b }
{
    u128::from(a.num()) * u128::from(b.den()) <= u128::from(b.num()) * u128::from(a.den())
}

/// The earlier of two instants that may be there.
pub(crate) fn earlier(a: Option<Ratio>, b: Option<Ratio>) -> Option<Ratio>
    ensures { result ≡ earlier_of a b }
{
    match (a, b) {
        (None, b) => b,
        (a, None) => a,
        (Some(a), Some(b)) => Some(if is_at_most(a, b) { a } else { b }),
    }
}

/// The first row after the moment given last.
pub(crate) fn row_ahead(course: &Course) -> Option<Ratio>
    requires { ∥ AreRows course.now ∥₁ }
    ensures { ∥ RowAhead course.now result ∥₁ }
{
    match course.times.get(course.row) {
        None => None,
        Some(at) => {
            if is_at_most(*at, course.stop) {
                Some(*at)
            } else {
                None
            }
        }
    }
}

/// The place of the first row after an instant that is next.
pub(crate) fn row_after(course: &Course, t: Ratio) -> usize
    requires rows { ∥ AreRows course.now ∥₁ }
    requires next { ∥ NextIs course.now (Some t) ∥₁ }
    ensures { ∥ IsRow course.now.times (Some (At t)) result ∥₁ }
{
    let rows = course.times.len();
    match course.times.get(course.row) {
        None => course.row,
        Some(at) => {
            if is_at_most(*at, t) {
                course.row + 1
            } else {
                course.row
            }
        }
    }
}
