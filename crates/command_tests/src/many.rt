//! Many partitions that tick together, several of which fault at one moment.
ghost use Rattle.std.specs.Prelude.{◌<◌, ◌≤◌};

use crate::call::answer_of;
use clocked_run::Status;
use std::alloc::{AllocError, Global};
use std::process::Abort;

const PARTITIONS: u32 = 300;

/// Whether a partition divides by 0 at its third tick, when its counter is 3.
fn faults(number: u32) -> bool {
    number == 7 || number == 100 || number == 299
}

fn limit_of(number: u32) -> u32 {
    if faults(number) { 3 } else { 1000 }
}

fn added(rt: &impl Abort, to: &mut String, written: Result<(), AllocError>) {
    assert!(rt; written.is_ok(), "{} bytes are written", to.len());
}

/// Partition i counts its ticks as `p`, and divides 6 by what lacks to its limit as `a`.
fn model_of(rt: &impl Abort, alloc: Global) -> String {
    let mut text = String::new(alloc);
    let head = write!(text, "model Many\n");
    added(rt, &mut text, head);
    for i in 1..PARTITIONS + 1 {
        let names = write!(text, "  Integer p{i}; Integer a{i};\n");
        added(rt, &mut text, names);
    }
    let mark = write!(text, "equation\n");
    added(rt, &mut text, mark);
    for j in 1..PARTITIONS + 1 {
        let limit = limit_of(j);
        let clause = write!(
            text,
            "  when Clock(1) then p{j} = previous(p{j}) + 1; a{j} = div(6, {limit} - p{j}); end when;\n"
        );
        added(rt, &mut text, clause);
    }
    let end = write!(text, "end Many;\n");
    added(rt, &mut text, end);
    text
}

/// The header, and the rows of the instants 0 and 1: 6 divided by 2 and by 1 where the limit is 3, and by more than 6 else.
fn trace_of(rt: &impl Abort, alloc: Global) -> String {
    let mut text = String::new(alloc);
    let head = write!(text, "time");
    added(rt, &mut text, head);
    for i in 1..PARTITIONS + 1 {
        let names = write!(text, ",p{i},a{i}");
        added(rt, &mut text, names);
    }
    let rows = [("\n0", 1, 3), ("\n1", 2, 6)];
    for (instant, count, quotient) in &rows {
        let row = write!(text, "{instant}");
        added(rt, &mut text, row);
        for j in 1..PARTITIONS + 1 {
            let value = if faults(j) { *quotient } else { 0 };
            let cells = write!(text, ",{count},{value}");
            added(rt, &mut text, cells);
        }
    }
    let end = write!(text, "\n");
    added(rt, &mut text, end);
    text
}

#[test]
fn the_first_of_many_faults_is_told(rt: HostRuntime) {
    let model = model_of(&rt, rt.alloc());
    let trace = trace_of(&rt, rt.alloc());
    for workers in ["1", "2", "3", "64"] {
        let words = ["m", "--stop", "5", "--workers", workers];
        let ended = answer_of(&rt, rt.alloc(), &words, model.as_bytes(), b"");
        let line = "fault divide at 2 in equation 14\n";
        assert!(&rt;
            ended.is(Status::Faulted, trace.as_bytes(), line),
            "{workers} workers"
        );
    }
}
