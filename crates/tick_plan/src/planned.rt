ghost use Rattle.std.specs.Prelude.{◌≡◌, ℕ, ◌*◌, ◌<◌, ◌≤◌, ◌^◌};
ghost use Rattle.rational_time.specs.declared.ratio.Ratio.{Ratio};
ghost use Rattle.flat_model.specs.Plan.{rows_within, IsPlanned, HasTicks};
ghost use Rattle.flat_model.specs.Tables.{IsTime};
ghost use Rattle.flat_model.specs.declared.clock.Clock.TheVariants.{Periodic};
ghost use Rattle.tick_plan.specs.Making.{IsCountable, AreCountable};
ghost use Rattle.tick_plan.specs.NewPlan.{IsCounted};

use crate::course::is_at_most;
use crate::plan_end::PlanEnd;
use flat_model::Clock;
use rational_time::{Ratio, ticks_until};

/// How many rows and ticks a run has at most.
const PLAN_LIMIT: u128 = 67_108_864;

/// How many rows are not after the stop.
fn rows_until(times: &[Ratio], stop: Ratio) -> u64
    ensures { result ≡ rows_within times.now stop }
{
    let mut rows = 0;
    for time in times {
        if is_at_most(*time, stop) {
            rows += 1;
        }
    }
    rows
}

/// How many ticks of a clock are not after the stop, where an Event clock counts as one that ticks at each row.
fn ticks_of(clock: Clock, rows: u128, stop: Ratio) -> u128
    requires clock { (period start : Ratio) → clock ≡ Periodic period start → IsCountable period start }
    requires rows { rows < 2 ^ 64 }
    requires stop { IsTime stop }
    ensures ticks { HasTicks stop rows clock result }
    ensures small { result ≤ 2 ^ 64 }
{
    match clock {
        Clock::Periodic { period, start } => ticks_until(period, start, stop),
        Clock::Event { .. } => rows,
    }
}

/// The rows and the ticks not after the stop.
fn count_of(clocks: &[Clock], times: &[Ratio], stop: Ratio) -> u128
    requires clocks { AreCountable clocks.now }
    requires stop { IsTime stop }
    ensures { IsPlanned clocks.now times.now stop result }
{
    let rows = u128::from(rows_until(times, stop));
    let mut count = rows;
    for clock in clocks {
        count += ticks_of(*clock, rows, stop);
    }
    count
}

/// Whether there are not too many rows and ticks, else their count.
pub(crate) fn counted(clocks: &[Clock], times: &[Ratio], stop: Ratio) -> Result<(), PlanEnd>
    requires clocks { AreCountable clocks.now }
    requires stop { IsTime stop }
    ensures { IsCounted clocks.now times.now stop result }
{
    let count = count_of(clocks, times, stop);
    if count > PLAN_LIMIT {
        return Err(PlanEnd::TooMany { count });
    }
    Ok(())
}
