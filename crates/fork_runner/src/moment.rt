//! A moment of a run, from its inputs to its row or its fault.
ghost use Rattle.std.specs.Prelude.{◌≡◌};
ghost use Rattle.run_moments.specs.Moving.{IsThere, Moves};
ghost use Rattle.fork_runner.specs.Runners.{is_kept};

use crate::fault::{earlier, fault_of};
use flat_model::{Fault, Moment};
use moment_body::Moments;
use moment_inputs::fill_row;
use moment_steps::StagedSteps;
use outside_io::Gate;
use site_risings::{answer_sites, note_sites};
use std::thread::Threads;
use tick_plan::TickSource;

/// Runs a moment that a plan gave: the sites that rise at it are noted, all that counts at it is stepped, and the first fault
/// is found. It takes no memory but that of threads.
pub(crate) fn run_moment<R: Threads + Sync, G: Gate + Sync, P: TickSource>(
    body: &mut Moments<StagedSteps>,
    rt: &R,
    gate: &G,
    plan: &mut P,
    at: Moment,
) -> Option<Fault>
    requires there { IsThere (is_kept body.old) (P.planned plan.old) at }
    ensures moves { Moves (is_kept body.old) (P.planned plan.old) at (is_kept body.new) (P.planned plan.new) body.new.sheet.row.items result }
    ensures model { body.new.model ≡ body.old.model }
{
    let now = body.sheet.now.as_mut_slice();
    let answers = body.sheet.answers.as_mut_slice();
    let low = body.sheet.low.as_mut_slice();
    body.steps.fill_inputs(&body.model, at, now);
    let first = body.steps.take_pure(&body.model, now);
    let site = answer_sites(body.model.clocking.sites.as_slice(), now, answers);
    note_sites(plan, answers, low);
    let behind = body
        .steps
        .take_rest(rt, gate, &body.model, at, plan, answers, now);
    if let Some(fault) = fault_of(at, site, earlier(first, behind)) {
        return Some(fault);
    }
    body.steps.keep(now);
    fill_row(
        body.sheet.columns.as_slice(),
        now,
        body.sheet.row.as_mut_slice(),
    );
    None
}
