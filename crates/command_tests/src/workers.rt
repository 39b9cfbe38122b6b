//! The same bytes for every number of workers.
use crate::call::{Ended, answer_of};
use crate::controller::{MODEL, TABLE, TRACE};
use clocked_run::Status;
use std::alloc::Global;
use std::process::Abort;
use std::thread::Threads;

const COUNTS: [&str; 4] = ["1", "2", "3", "64"];

/// The first clock faults at 1/2, and so does the second one, whose equations come later.
const TWO_FAULTS: &str =
    "model M Integer p; Integer a; Integer q; Integer b; equation when Clock(1,2) then p = previous(p) + 1; a = div(6, 2 - p); end when; when Clock(1,4) then q = previous(q) + 1; b = div(6, 3 - q); end when; end M;\n";

fn controller<R: Threads + Abort + Sync>(rt: &R, alloc: Global, workers: &str) -> Ended {
    let words = ["m", "--stop", "0.02", "--table", "t", "--workers", workers];
    answer_of(rt, alloc, &words, MODEL.as_bytes(), TABLE.as_bytes())
}

#[test]
fn a_trace_is_the_same_for_all_workers(rt: HostRuntime) {
    for workers in COUNTS {
        let ended = controller(&rt, rt.alloc(), workers);
        assert!(&rt;
            ended.is(Status::Done, TRACE.as_bytes(), ""),
            "{workers} workers"
        );
    }
}

#[test]
fn a_fault_is_the_same_for_all_workers(rt: HostRuntime) {
    for workers in COUNTS {
        let words = ["m", "--stop", "1", "--workers", workers];
        let ended = answer_of(&rt, rt.alloc(), &words, TWO_FAULTS.as_bytes(), b"");
        let out = b"time,p,a,q,b\n0,1,6,1,3\n1/4,,,2,6\n";
        let line = "fault divide at 1/2 in equation 2\n";
        assert!(&rt; ended.is(Status::Faulted, out, line), "{workers} workers");
    }
}
