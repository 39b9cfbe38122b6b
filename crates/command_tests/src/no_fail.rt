//! Files of which no read fails, and an output that takes everything.
use crate::call::{file, owned, sink};
use crate::controller::{MODEL, TABLE, TRACE, WORDS};
use clocked_run::{Status, clocked_run};
use outside_io::{NoFailShelf, NoFailSink, OpenGate};
use std::alloc::Global;
use std::process::Abort;

/// The files `m` and `t` of the controller.
fn controller(rt: &impl Abort, alloc: Global) -> NoFailShelf {
    let mut files = Vec::new(alloc);
    for (name, text) in [("m", MODEL), ("t", TABLE)] {
        let file = file(rt, alloc, name, text.as_bytes());
        files.push(file).expect(rt, "memory");
    }
    NoFailShelf::new(files)
}

#[test]
fn sure_files_give_the_whole_trace(rt: HostRuntime) {
    let alloc = rt.alloc();
    let words = owned(&rt, alloc, WORDS);
    let mut shelf = controller(&rt, alloc);
    let mut out = sink(&rt, alloc, 1 << 20, 4096, 0);
    let mut err = sink(&rt, alloc, 4096, 4096, 0);
    let status = clocked_run(
        &rt, alloc, &words, &mut shelf, &mut out, &mut err, &OpenGate,
    );
    assert!(&rt; status == Status::Done);
    assert!(&rt; out.text() == TRACE.as_bytes());
    assert!(&rt; err.text().is_empty());
}

#[test]
fn a_sure_output_takes_the_whole_trace(rt: HostRuntime) {
    let alloc = rt.alloc();
    let words = owned(&rt, alloc, WORDS);
    let mut shelf = controller(&rt, alloc);
    let (mut out, mut err) = (NoFailSink::new(), NoFailSink::new());
    let status = clocked_run(
        &rt, alloc, &words, &mut shelf, &mut out, &mut err, &OpenGate,
    );
    assert!(&rt; status == Status::Done);
    assert!(&rt; out.bytes() == TRACE.len() as u64);
    assert!(&rt; err.bytes() == 0);
}

#[test]
fn a_name_that_is_not_held_is_an_empty_model(rt: HostRuntime) {
    let alloc = rt.alloc();
    let words = owned(&rt, alloc, &["n", "--stop", "1"]);
    let mut shelf = controller(&rt, alloc);
    let mut out = NoFailSink::new();
    let mut err = sink(&rt, alloc, 4096, 4096, 0);
    let status = clocked_run(
        &rt, alloc, &words, &mut shelf, &mut out, &mut err, &OpenGate,
    );
    assert!(&rt; status == Status::Refused);
    assert!(&rt; out.bytes() == 0);
    assert!(&rt; err.text() == "refused N1 at 1:1\n".as_bytes());
}
