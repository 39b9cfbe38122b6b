ghost use Rattle.std.specs.Prelude.{◌≡◌, ◌≤◌, length};
ghost use Rattle.flat_model.specs.Models.{AreNames};
ghost use Rattle.flat_model.specs.Trace.{columns_of, header_text};
ghost use Rattle.run_ahead.specs.Advances.{HasRow};
ghost use Rattle.fork_runner.specs.Runners.{StandsFor, flat_of, seen_of};
ghost use Rattle.run_trace.specs.Printing.{PrintsRuns, written};
ghost use Rattle.run_trace.specs.Standing.{IsAtStart};
ghost use Rattle.run_trace.specs.private.Putting.{IsPutRow, HasRowOf, PutsLast, Reports, TracesRuns};

use command_answer::Status;
use flat_model::Fault;
use fork_runner::{Advance, Runner};
use outside_io::{Gate, Sink, put_all};
use std::alloc::Global;
use std::thread::Threads;
use tick_plan::TickSource;
use trace_print::{Line, fault, reserve};

/// How a run ended, and whether its trace was put whole.
#[derive(Clone, Copy)]
struct TraceEnd {
    fault: Option<Fault>,
    whole: bool,
}

/// Prints a run whose runner stands before its first moment: the header and a line for each row on `out`, and where an
/// arithmetic fault ends it, the line of the fault on `err`. Each line is put by one `put_all`.
///
/// All memory is taken before the header; where it is refused, `err` has a line that says so, and `out` nothing. Once
/// `out` fails nothing more is put, but the run goes on to its end.
///
/// Source: this project's own.
pub fn print_run<R: Threads + Sync, G: Gate + Sync, P: TickSource, O: Sink, E: Sink>(
    rt: &R,
    gate: &G,
    alloc: Global,
    runner: &mut Runner<P>,
    out: &mut O,
    err: &mut E,
) -> Status
    requires start { IsAtStart (StandsFor P.planned runner.old) (flat_of runner.old) }
    requires names { AreNames (flat_of runner.old).names }
    ensures prints { PrintsRuns (StandsFor P.planned runner.old) (flat_of runner.old) (written (O.text out.old) (O.text out.new) (O.faults out.old) (O.faults out.new))
        (written (E.text err.old) (E.text err.new) (E.faults err.old) (E.faults err.new)) result }
    ensures counts { (O.faults out.old ≤ O.faults out.new) × (E.faults err.old ≤ E.faults err.new) }
{
    match reserve(alloc, runner.flat()) {
        Ok(mut line) => {
            let end = put_trace(rt, gate, runner, &mut line, out);
            report(end, err)
        }
        Err(_) => put_last(err, Status::NoMemory, b"no memory\n"),
    }
}

/// Puts the header, and then the rows of a run to its end or its first fault.
fn put_trace<R: Threads + Sync, G: Gate + Sync, P: TickSource, O: Sink>(
    rt: &R,
    gate: &G,
    runner: &mut Runner<P>,
    line: &mut Line,
    out: &mut O,
) -> TraceEnd
    requires start { IsAtStart (StandsFor P.planned runner.old) (flat_of runner.old) }
    requires header { length (header_text (flat_of runner.old).names) ≤ line.old.bytes }
    requires columns { line.old.columns ≡ length (columns_of (flat_of runner.old).names) }
    ensures traces { TracesRuns (StandsFor P.planned runner.old) (flat_of runner.old) result (written (O.text out.old) (O.text out.new) (O.faults out.old) (O.faults out.new)) }
    ensures counts { O.faults out.old ≤ O.faults out.new }
{
    let mut whole = put_all(out, line.header(runner.flat())).is_ok();
    'rows: for _row in 0..u64::MAX {
        match runner.advance(rt, gate) {
            Advance::Row => whole = put_row(runner, line, out, whole),
            Advance::Fault(fault) => {
                return TraceEnd {
                    fault: Some(fault),
                    whole,
                };
            }
            Advance::End => return TraceEnd { fault: None, whole },
        }
    }
    unreachable!()
}

/// Puts the row given last, unless a put had failed before.
fn put_row<P: TickSource, O: Sink>(
    runner: &Runner<P>,
    line: &mut Line,
    out: &mut O,
    whole: bool,
) -> bool
    requires row { HasRow (seen_of runner.now) }
    requires columns { HasRowOf (seen_of runner.now) line.old.columns }
    ensures line { line.new ≡ line.old }
    ensures puts { IsPutRow whole result (seen_of runner.now) (written (O.text out.old) (O.text out.new) (O.faults out.old) (O.faults out.new)) }
    ensures counts { O.faults out.old ≤ O.faults out.new }
{
    if !whole {
        return false;
    }
    put_all(out, line.row(runner.instant(), runner.values())).is_ok()
}

/// Puts the line of the fault that ended a run, and gives the status.
fn report<E: Sink>(end: TraceEnd, err: &mut E) -> Status
    ensures reports { Reports end result (written (E.text err.old) (E.text err.new) (E.faults err.old) (E.faults err.new)) }
    ensures counts { E.faults err.old ≤ E.faults err.new }
{
    if !end.whole {
        return Status::WriteFault;
    }
    match end.fault {
        Some(ended) => put_last(err, Status::Faulted, fault(&ended).bytes()),
        None => Status::Done,
    }
}

/// Puts the last line of a run, and gives its status.
pub fn put_last<E: Sink>(err: &mut E, status: Status, line: &[u8]) -> Status
    ensures puts { PutsLast status line.now result (written (E.text err.old) (E.text err.new) (E.faults err.old) (E.faults err.new)) }
    ensures counts { E.faults err.old ≤ E.faults err.new }
{
    match put_all(err, line) {
        Ok(()) => status,
        Err(_) => Status::WriteFault,
    }
}
