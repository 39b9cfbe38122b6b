ghost use Rattle.std.specs.Prelude.{length};
ghost use Rattle.flat_model.specs.Runnable.{AreClocks};
ghost use Rattle.flat_model.specs.Tables.{IsTableOf, IsTime};
ghost use Rattle.tick_plan.specs.NewPlan.{IsPlanOf};
ghost use Rattle.tick_plan.specs.SeenFractions.{fraction_seen};

use crate::fraction_plan::FractionPlan;
use crate::plan_end::PlanEnd;
use crate::planned::counted;
use crate::starting::first_course;
use flat_model::{Clocking, FlatModel, Table};
use rational_time::Ratio;
use std::alloc::Global;

impl FractionPlan {
    /// The plan of a clocking and a table up to a stop, before its first moment.
    ///
    /// # Errors
    ///
    /// `TooMany` comes exactly where the rows and ticks not after the stop are more than 67,108,864.
    pub fn new(
        alloc: Global,
        flat: &FlatModel,
        clocking: &Clocking,
        table: &Table,
        stop: Ratio,
    ) -> Result<FractionPlan, PlanEnd>
        requires table { IsTableOf flat.now table.now }
        requires clocks { AreClocks clocking.now }
        requires stop { IsTime stop }
        ensures { IsPlanOf fraction_seen clocking.now.clocks table.now.times (length clocking.now.sites) stop result }
    {
        let clocks = clocking.clocks.as_slice();
        let times = table.times.as_slice();
        counted(clocks, times, stop)?;
        let course = first_course(alloc, clocks, times, stop)?;
        let sites = clocking.sites.len();
        let risings = vec![in alloc; 0; sites]?;
        let noted = vec![in alloc; false; sites]?;
        Ok(FractionPlan {
            course,
            risings,
            noted,
        })
    }
}
