ghost use Rattle.std.specs.Prelude.{◌≡◌, List};
ghost use Rattle.rational_time.specs.declared.ratio.Ratio.{Ratio};
ghost use Rattle.flat_model.specs.NextInstant.{AreLeft};
ghost use Rattle.tick_plan.specs.private.Fraction.{IsWhole};
ghost use Rattle.tick_plan.specs.Left.{StepsOn};

use crate::course::Course;
use crate::fraction::{next_instant, pass};
use flat_model::Moment;

/// Goes on to the next moment.
pub(crate) fn step(course: &mut Course) -> Option<Moment>
    requires { ∥ IsWhole course.old ∥₁ }
    ensures whole { ∥ IsWhole course.new ∥₁ }
    ensures steps { (instants : List Ratio) → ∥ AreLeft course.old.clocks course.old.times course.old.stop course.old.given instants ∥₁ → StepsOn course.old course.new instants result }
{
    match course.given {
        None => {
            course.given = Some(Moment::Initial);
            Some(Moment::Initial)
        }
        Some(_) => match next_instant(course) {
            None => None,
            Some(at) => {
                pass(course, at);
                Some(Moment::At(at))
            }
        },
    }
}
