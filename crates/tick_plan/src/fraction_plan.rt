ghost use Rattle.std.specs.Prelude.{◌≡◌, length};
ghost use Rattle.tick_plan.specs.private.Fraction.{IsWhole};
ghost use Rattle.tick_plan.specs.Left.{HasLeft, HasLeft-prop, AreFew};

use crate::common::with_clock;
use crate::counting::count_all;
use crate::course::Course;
use crate::fraction_stepping::step;
use crate::making::{limit_of, units_of};
use crate::ticks::{is_event_tick, is_grid_tick};
use crate::traits::{TickSource, Ticking};
use flat_model::{Clock, Moment};

/// A plan that looks at each clock at each moment, and counts each in its own denominators.
#[derive(Drop)]
pub struct FractionPlan {
    pub(crate) course: Course,
    pub(crate) risings: Vec<u64>,
    pub(crate) noted: Vec<bool>,
    pub ghost whole: { ∥ IsWhole course ∥₁ },
    pub ghost left: { HasLeft course } by { HasLeft-prop course },
    pub ghost long: { length risings.items ≡ length noted.items },
    pub ghost few: { AreFew course left.0 risings.items },
}

impl TickSource for FractionPlan {
    ghost use Rattle.tick_plan.specs.Left.{seen};
    ghost use Rattle.tick_plan.specs.Plans.{ticks_in_plan};

    ghost planned = { λ p. seen p.course p.left.0 p.risings.items p.noted.items };

    fn next(&mut self) -> Option<Moment> {
        match step(&mut self.course) {
            None => None,
            Some(moment) => {
                count_all(&mut self.risings, &mut self.noted);
                Some(moment)
            }
        }
    }

    fn rise(&mut self, site: u32) {
        self.noted[site as usize] = true;
    }

    ghost ticks_are = { λ x class i. ticks_in_plan (seen x.course x.left.0 x.risings.items x.noted.items) class };
}

impl Ticking for FractionPlan {
    ghost use Rattle.tick_plan.specs.Left.{seen};
    ghost use Rattle.tick_plan.specs.Plans.{ticks_in_plan};

    ghost ticks = { λ p. ticks_in_plan (seen p.course p.left.0 p.risings.items p.noted.items) };

    fn ticking(&self, class: u32) -> bool {
        let Some(moment) = self.course.given else {
            return false;
        };
        let Moment::At(at) = moment else {
            return false;
        };
        let Some(clock) = self.course.clocks.get(class as usize) else {
            return false;
        };
        match *clock {
            Clock::Periodic { period, start } => {
                let den = with_clock(1, period, start);
                let limit = limit_of(self.course.stop, den);
                is_grid_tick(
                    at,
                    den,
                    units_of(start, den, limit),
                    units_of(period, den, limit),
                )
            }
            Clock::Event {
                site,
                factor,
                shift,
            } => is_event_tick(
                self.risings.as_slice(),
                self.noted.as_slice(),
                site,
                factor,
                shift,
            ),
        }
    }
}
