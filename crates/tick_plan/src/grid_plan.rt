ghost use Rattle.std.specs.Prelude.{◌≡◌, length};
ghost use Rattle.flat_model.specs.Runnable.{denominators};
ghost use Rattle.tick_plan.specs.private.Axis.{IsAxis};
ghost use Rattle.tick_plan.specs.private.Course.{IsWithin};
ghost use Rattle.tick_plan.specs.private.Grid.{IsScaled};
ghost use Rattle.tick_plan.specs.Left.{HasLeft, HasLeft-prop, AreFew};
ghost use Rattle.tick_plan.specs.Making.{IsLeastMultiple};

use crate::axis::Axis;
use crate::counting::count_all;
use crate::stepping::step;
use crate::ticks::{is_event_tick, is_grid_tick};
use crate::traits::{TickSource, Ticking};
use flat_model::{Clock, Moment};

/// A plan in units of one denominator.
#[derive(Drop)]
pub struct GridPlan {
    pub(crate) axis: Axis,
    pub(crate) risings: Vec<u64>,
    pub(crate) noted: Vec<bool>,
    pub(crate) firsts: Vec<u64>,
    pub(crate) steps: Vec<u64>,
    pub ghost scaled: { ∥ IsScaled axis.course.clocks axis.den axis.limit firsts.items steps.items ∥₁ },
    pub ghost least: { ∥ IsLeastMultiple (denominators axis.course.clocks) axis.den ∥₁ },
    pub ghost within: { ∥ IsWithin axis.course.given axis.course.stop ∥₁ },
    pub ghost placed: { ∥ IsAxis axis ∥₁ },
    pub ghost left: { HasLeft axis.course } by { HasLeft-prop axis.course },
    pub ghost long: { length risings.items ≡ length noted.items },
    pub ghost few: { AreFew axis.course left.0 risings.items },
}

impl TickSource for GridPlan {
    ghost use Rattle.tick_plan.specs.Left.{seen};
    ghost use Rattle.tick_plan.specs.Plans.{ticks_in_plan};

    ghost planned = { λ p. seen p.axis.course p.left.0 p.risings.items p.noted.items };

    fn next(&mut self) -> Option<Moment> {
        match step(&mut self.axis) {
            None => None,
            Some(moment) => {
                count_all(&mut self.risings, &mut self.noted);
                Some(moment)
            }
        }
    }

    fn rise(&mut self, site: u32) {
        self.noted[site as usize] = true;
    }

    ghost ticks_are = { λ x class i. ticks_in_plan (seen x.axis.course x.left.0 x.risings.items x.noted.items) class };
}

impl Ticking for GridPlan {
    ghost use Rattle.tick_plan.specs.Left.{seen};
    ghost use Rattle.tick_plan.specs.Plans.{ticks_in_plan};

    ghost ticks = { λ p. ticks_in_plan (seen p.axis.course p.left.0 p.risings.items p.noted.items) };

    fn ticking(&self, class: u32) -> bool {
        let Some(moment) = self.axis.course.given else {
            return false;
        };
        let Moment::At(at) = moment else {
            return false;
        };
        let Some(clock) = self.axis.course.clocks.get(class as usize) else {
            return false;
        };
        let firsts = self.firsts.as_slice();
        let steps = self.steps.as_slice();
        match *clock {
            Clock::Periodic { .. } => is_grid_tick(
                at,
                self.axis.den,
                firsts[class as usize],
                steps[class as usize],
            ),
            Clock::Event {
                site,
                factor,
                shift,
            } => is_event_tick(
                self.risings.as_slice(),
                self.noted.as_slice(),
                site,
                factor,
                shift,
            ),
        }
    }
}
