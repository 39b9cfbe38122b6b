ghost use Rattle.std.specs.Prelude.{◌≡◌, ◌≤◌, ◌⊎◌};
ghost use Rattle.flat_model.specs.Setting.{Setting};
ghost use Rattle.command_answer.specs.Calls.{no_memory};
ghost use Rattle.run_trace.specs.Planned.{IsPlannedRun};
ghost use Rattle.run_trace.specs.Printing.{EndsOn, written};
ghost use Rattle.run_tally.specs.Tallies.{AddsUp};

use crate::tally::tally;
use command_answer::Status;
use fork_runner::Runner;
use outside_io::{Gate, Sink};
use run_trace::{PlannedRun, put_last};
use std::alloc::Global;
use std::thread::Threads;
use stress_sums::sums_text;
use trace_print::fault;

/// Runs the stress model of so many members and prints what its rows add up to on `out`, by one `put_all`; where an
/// arithmetic fault ends the run, the line of the fault is put on `err`, and `out` has nothing.
///
/// All memory but that of threads is taken before the run; where it is refused, `err` has a line that says so.
///
/// Source: this project's own.
pub fn run_stress<R: Threads + Sync, G: Gate + Sync, O: Sink, E: Sink>(
    rt: &R,
    gate: &G,
    alloc: Global,
    members: u64,
    run: PlannedRun,
    out: &mut O,
    err: &mut E,
) -> Status
    requires workers { (1 ≤ run.workers) × (run.workers ≤ 64) }
    requires planned { (s : Setting) × IsPlannedRun run s }
    ensures prints { (s : Setting) → IsPlannedRun run s → EndsOn (λ answer. AddsUp members s answer ⊎ (answer ≡ no_memory)) (written (O.text out.old) (O.text out.new) (O.faults out.old) (O.faults out.new))
        (written (E.text err.old) (E.text err.new) (E.faults err.old) (E.faults err.new)) result }
    ensures counts { (O.faults out.old ≤ O.faults out.new) × (E.faults err.old ≤ E.faults err.new) }
{
    let PlannedRun {
        flat,
        clocking,
        order,
        table,
        plan,
        workers,
    } = run;
    let order = order.as_slice();
    match Runner::prepare(alloc, flat, clocking, order, table, plan, workers) {
        Ok(mut runner) => match tally(rt, gate, &mut runner) {
            Ok(sums) => put_last(out, Status::Done, sums_text(members, sums).bytes()),
            Err(ended) => put_last(err, Status::Faulted, fault(&ended).bytes()),
        },
        Err(_) => put_last(err, Status::NoMemory, b"no memory\n"),
    }
}
