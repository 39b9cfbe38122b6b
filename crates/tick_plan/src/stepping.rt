ghost use Rattle.std.specs.Prelude.{◌≡◌, List, ◌<◌};
ghost use Rattle.rational_time.specs.declared.ratio.Ratio.{Ratio};
ghost use Rattle.flat_model.specs.NextInstant.{AreLeft};
ghost use Rattle.tick_plan.specs.private.Axis.{IsSound, IsSameAxis};
ghost use Rattle.tick_plan.specs.Left.{StepsOn};

use crate::ahead::{next_instant, pass};
use crate::axis::Axis;
use flat_model::Moment;

/// Goes on to the next moment.
pub(crate) fn step(axis: &mut Axis) -> Option<Moment>
    requires { IsSound axis.old }
    ensures sound { IsSound axis.new }
    ensures same { IsSameAxis axis.old axis.new }
    ensures steps { (instants : List Ratio) → ∥ AreLeft axis.old.course.clocks axis.old.course.times axis.old.course.stop axis.old.course.given instants ∥₁
        → StepsOn axis.old.course axis.new.course instants result }
{
    match axis.course.given {
        None => {
            axis.course.given = Some(Moment::Initial);
            Some(Moment::Initial)
        }
        Some(_) => match next_instant(axis) {
            None => None,
            Some(at) => {
                pass(axis, at);
                Some(Moment::At(at))
            }
        },
    }
}
