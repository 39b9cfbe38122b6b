ghost use Rattle.std.specs.Prelude.{◌≡◌, ◌≤◌, ◌⊎◌};
ghost use Rattle.flat_model.specs.Setting.{Setting};
ghost use Rattle.command_answer.specs.Actions.{Runs};
ghost use Rattle.command_answer.specs.Calls.{no_memory};
ghost use Rattle.run_trace.specs.Planned.{IsPlannedRun};
ghost use Rattle.run_trace.specs.Printing.{EndsOn, written};

use crate::print::{print_run, put_last};
use command_answer::Status;
use eq_order::Use;
use flat_model::{Clocking, FlatModel, Table};
use fork_runner::Runner;
use outside_io::{Gate, Sink};
use std::alloc::Global;
use std::thread::Threads;
use sync_values::List;
use tick_plan::Plan;

/// All that a run is made of.
#[derive(Drop)]
pub struct PlannedRun {
    pub flat: FlatModel,
    pub clocking: Clocking,
    /// The uses of the model's equations, in the order in which they give values to names.
    pub order: List<Use>,
    pub table: Table,
    pub plan: Plan,
    /// How many threads may step base partitions.
    pub workers: u32,
}

/// Runs a model and prints its trace: the header and a line for each row on `out`, and where an arithmetic fault ends the
/// run, the line of the fault on `err`. Each line is put by one `put_all`.
///
/// All memory but that of threads is taken before the header; where it is refused, `err` has a line that says so, and `out`
/// nothing.
///
/// Source: this project's own.
pub fn run_model<R: Threads + Sync, G: Gate + Sync, O: Sink, E: Sink>(
    rt: &R,
    gate: &G,
    alloc: Global,
    run: PlannedRun,
    out: &mut O,
    err: &mut E,
) -> Status
    requires workers { (1 ≤ run.workers) × (run.workers ≤ 64) }
    requires planned { (s : Setting) × IsPlannedRun run s }
    ensures prints { (s : Setting) → IsPlannedRun run s → EndsOn (λ answer. Runs s answer ⊎ (answer ≡ no_memory)) (written (O.text out.old) (O.text out.new) (O.faults out.old) (O.faults out.new))
        (written (E.text err.old) (E.text err.new) (E.faults err.old) (E.faults err.new)) result }
    ensures counts { (O.faults out.old ≤ O.faults out.new) × (E.faults err.old ≤ E.faults err.new) }
{
    let PlannedRun {
        flat,
        clocking,
        order,
        table,
        plan,
        workers,
    } = run;
    let order = order.as_slice();
    match Runner::prepare(alloc, flat, clocking, order, table, plan, workers) {
        Ok(mut runner) => print_run(rt, gate, alloc, &mut runner, out, err),
        Err(_) => put_last(err, Status::NoMemory, b"no memory\n"),
    }
}
