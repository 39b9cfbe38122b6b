ghost use Rattle.std.specs.Prelude.{length};
ghost use Rattle.flat_model.specs.Runnable.{AreClocks, denominators};
ghost use Rattle.flat_model.specs.Tables.{IsTableOf, IsTime};
ghost use Rattle.tick_plan.specs.Making.{IsLeastMultiple};
ghost use Rattle.tick_plan.specs.NewPlan.{IsPlanOf};
ghost use Rattle.tick_plan.specs.NextTick.{NextTickIs};
ghost use Rattle.tick_plan.specs.Seen.{grid_seen};

use crate::common::common_den;
use crate::grid_plan::GridPlan;
use crate::leaves::scaled;
use crate::making::limit_of;
use crate::next_units::next_units;
use crate::plan_end::PlanEnd;
use crate::planned::counted;
use crate::starting::{first_axis, first_course};
use flat_model::{Clock, Clocking, FlatModel, Table};
use rational_time::Ratio;
use std::alloc::Global;

impl GridPlan {
    /// The plan of a clocking and a table up to a stop, before its first moment. It counts rows and ticks before it takes
    /// memory, and takes memory in proportion to the classes, the rows and the sites.
    ///
    /// # Errors
    ///
    /// `TooMany` comes exactly where the rows and ticks not after the stop are more than 67,108,864.
    pub fn new(
        alloc: Global,
        flat: &FlatModel,
        clocking: &Clocking,
        table: &Table,
        stop: Ratio,
    ) -> Result<GridPlan, PlanEnd>
        requires table { IsTableOf flat.now table.now }
        requires clocks { AreClocks clocking.now }
        requires stop { IsTime stop }
        ensures { IsPlanOf grid_seen clocking.now.clocks table.now.times (length clocking.now.sites) stop result }
    {
        let clocks = clocking.clocks.as_slice();
        let times = table.times.as_slice();
        counted(clocks, times, stop)?;
        let den = common_den(clocks);
        let limit = limit_of(stop, den);
        let units = scaled(alloc, clocks, den, limit)?;
        let course = first_course(alloc, clocks, times, stop)?;
        let axis = first_axis(alloc, course, den, limit, &units)?;
        let sites = clocking.sites.len();
        let risings = vec![in alloc; 0; sites]?;
        let noted = vec![in alloc; false; sites]?;
        Ok(GridPlan {
            axis,
            risings,
            noted,
            firsts: units.firsts,
            steps: units.steps,
        })
    }

    /// The least common denominator of all clocks in seconds, and 1 where there is none.
    pub fn denominator(&self) -> u64
        ensures { ∥ IsLeastMultiple (denominators (grid_seen self.now).clocks) result ∥₁ }
    {
        self.axis.den
    }

    /// The first tick of a class after the moment given last, counted in units of one over `denominator`; where no moment was
    /// given yet, its first tick of all. `None` comes exactly where the class has no clock in seconds, or no such tick is up
    /// to the stop.
    pub fn next_tick(&self, class: u32) -> Option<u64>
        ensures { ∥ NextTickIs (grid_seen self.now) class result ∥₁ }
    {
        let Some(clock) = self.axis.course.clocks.get(class as usize) else {
            return None;
        };
        match *clock {
            Clock::Periodic { .. } => {
                let firsts = self.firsts.as_slice();
                let steps = self.steps.as_slice();
                let units = next_units(
                    self.axis.course.given,
                    self.axis.den,
                    firsts[class as usize],
                    steps[class as usize],
                    self.axis.limit,
                );
                if units < self.axis.limit {
                    Some(units)
                } else {
                    None
                }
            }
            Clock::Event { .. } => None,
        }
    }
}
