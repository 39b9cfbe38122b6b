ghost use Rattle.std.specs.Prelude.{IfErr, IfOk, length};
ghost use Rattle.flat_model.specs.Models.{IsModel};
ghost use Rattle.flat_model.specs.Runnable.{AreClocks};
ghost use Rattle.flat_model.specs.Tables.{IsTableOf, IsTime};
ghost use Rattle.tick_plan.specs.Plans.{IsNewPlan};
ghost use Rattle.tick_plan.specs.Seen.{grid_seen};
ghost use Rattle.command_answer.specs.Layers.{counted, ordered};
ghost use Rattle.command_stages.specs.Ends.{Halts, IsPrintable};

use crate::end::End;
use eq_order::{Use, order};
use flat_model::{Clocking, FlatModel, Table};
use rational_time::Ratio;
use std::alloc::Global;
use sync_values::List;
use tick_plan::Plan;

/// The order in which the names of a model are reached, whatever its table and stop.
///
/// # Errors
///
/// Where there is none, the first of Q1 to Q4 that is broken, or want of memory.
///
/// Source: this project's own.
#[tactic(auto, using(crate::proofs::Halting::passed, crate::proofs::Layered::ordered_makes, crate::proofs::Layered::ordered_halts, crate::proofs::Short::order_short))]
pub fn order_of(
    alloc: Global,
    flat: &FlatModel,
    clocking: &Clocking,
) -> Result<List<Use>, End<'static>>
    requires model { IsModel flat.now }
    requires clocks { AreClocks clocking.now }
    ensures made { IfOk result (ordered flat.now clocking.now).makes }
    ensures ended { IfErr result (Halts (ordered flat.now clocking.now)) }
    ensures short { IfErr result IsPrintable }
{
    Ok(order(alloc, flat, clocking)?)
}

/// The plan of a run up to a stop, in seconds, before its first moment: it has all its instants ahead.
///
/// # Errors
///
/// P1 where the rows and ticks up to the stop are more than 67,108,864, or want of memory.
///
/// Source: this project's own.
#[tactic(auto, using(crate::proofs::Halting::passed, crate::proofs::Layered::counted_makes, crate::proofs::Layered::counted_halts, crate::proofs::Layered::plan_short))]
pub fn plan_of(
    alloc: Global,
    flat: &FlatModel,
    clocking: &Clocking,
    table: &Table,
    stop: Ratio,
) -> Result<Plan, End<'static>>
    requires table { IsTableOf flat.now table.now }
    requires clocks { AreClocks clocking.now }
    requires stop { IsTime stop }
    ensures made { IfOk result (λ plan. (counted clocking.now table.now stop).makes tt) }
    ensures ahead { IfOk result (λ plan. IsNewPlan clocking.now.clocks table.now.times stop (length clocking.now.sites) (grid_seen plan)) }
    ensures ended { IfErr result (Halts (counted clocking.now table.now stop)) }
    ensures short { IfErr result IsPrintable }
{
    Ok(Plan::new(alloc, flat, clocking, table, stop)?)
}
