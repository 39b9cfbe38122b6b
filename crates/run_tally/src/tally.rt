ghost use Rattle.flat_model.specs.Models.{AreNames};
ghost use Rattle.fork_runner.specs.Runners.{StandsFor, flat_of};
ghost use Rattle.run_trace.specs.Standing.{IsAtStart};
ghost use Rattle.run_tally.specs.Tallies.{TalliesRuns};

use flat_model::Fault;
use fork_runner::{Advance, Runner};
use outside_io::Gate;
use std::thread::Threads;
use stress_sums::Sums;
use tick_plan::TickSource;

/// What the rows of a run add up to, or its first fault.
pub fn tally<R: Threads + Sync, G: Gate + Sync, P: TickSource>(
    rt: &R,
    gate: &G,
    runner: &mut Runner<P>,
) -> Result<Sums, Fault>
    requires start { IsAtStart (StandsFor P.planned runner.old) (flat_of runner.old) }
    requires names { AreNames (flat_of runner.old).names }
    ensures { TalliesRuns (StandsFor P.planned runner.old) (flat_of runner.old) result }
{
    let mut sums = Sums::none();
    'rows: for _row in 0..u64::MAX {
        match runner.advance(rt, gate) {
            Advance::Row => sums = sums.with_row(runner.values()),
            Advance::Fault(fault) => return Err(fault),
            Advance::End => return Ok(sums),
        }
    }
    unreachable!()
}
