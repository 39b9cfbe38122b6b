ghost use Rattle.std.specs.Prelude.{◌≡◌, ◌≤◌, map, string_bytes};
ghost use Rattle.clocked_run.specs.TopCall.{TopCall};
ghost use Rattle.clocked_run.specs.private.Putting.{PrintsText};

use crate::report::report;
use crate::task::{Task, task_of};
use command_answer::Status;
use outside_io::{Gate, Shelf, Sink, put_all};
use run_tally::run_stress;
use run_trace::run_model;
use std::alloc::Global;
use std::thread::Threads;

/// Carries out a command, `MODEL --stop T [--table FILE] [--class NAME] [--workers N] [--mode MODE]`, over the files of
/// a shelf: what it prints goes to `out`, the line on what keeps it from its end to `err`, and the status tells which
/// end it came to.
///
/// Each base-clock partition that is stepped passes the gate. All memory but that of threads is taken before the
/// header is put.
///
/// Source: MLS 3.6, chapter 16, "Synchronous Language Elements", for what a run prints; the words, the order of the
/// rules and the lines are this project's own.
pub fn clocked_run<S: Shelf, O: Sink, E: Sink, G: Gate + Sync, R: Threads + Sync>(
    rt: &R,
    alloc: Global,
    words: &[String],
    shelf: &mut S,
    out: &mut O,
    err: &mut E,
    gate: &G,
) -> Status
    ensures { TopCall (map string_bytes words.now) (record {
      held = S.held shelf.old;
      held_after = S.held shelf.new;
      empty = S.gives_empty shelf.old;
      empty_after = S.gives_empty shelf.new;
      faults = S.faults shelf.old;
      faults_after = S.faults shelf.new;
      out = record { old = O.text out.old; new = O.text out.new; before = O.faults out.old; after = O.faults out.new };
      err = record { old = E.text err.old; new = E.text err.new; before = E.faults err.old; after = E.faults err.new };
    }) result }
{
    match task_of(alloc, words, shelf) {
        Ok(Task::Print(text)) => print(text.as_slice(), out),
        Ok(Task::Run(run)) => run_model(rt, gate, alloc, run, out, err),
        Ok(Task::Stress(members, run)) => run_stress(rt, gate, alloc, members, run, out, err),
        Err(end) => report(&end, err),
    }
}

/// Puts the text of a mode on out.
fn print<O: Sink>(text: &[u8], out: &mut O) -> Status
    ensures prints { PrintsText text.now result (record { old = O.text out.old; new = O.text out.new; before = O.faults out.old; after = O.faults out.new }) }
    ensures counts { O.faults out.old ≤ O.faults out.new }
{
    match put_all(out, text) {
        Ok(()) => Status::Done,
        Err(_) => Status::WriteFault,
    }
}
