//! Files and outputs that fail in the midst of a command.
use crate::call::{Devices, Ended, SOUND, owned, run};
use crate::controller::{MODEL, TABLE, TRACE, WORDS};
use clocked_run::Status;
use outside_io::OpenGate;
use std::alloc::Global;
use std::process::Abort;
use std::thread::Threads;

fn controller<R: Threads + Abort + Sync>(rt: &R, alloc: Global, devices: &Devices) -> Ended {
    let words = owned(rt, alloc, WORDS);
    let texts = (MODEL.as_bytes(), TABLE.as_bytes());
    run(rt, alloc, &words, texts, devices, &OpenGate)
}

/// With seven bytes a read the model of 899 bytes takes 129 reads and one that finds its end, and the table those behind
/// them.
const READS: [(u64, &str); 5] = [
    (1, "read fault: m\n"),
    (2, "read fault: m\n"),
    (50, "read fault: m\n"),
    (131, "read fault: t\n"),
    (132, "read fault: t\n"),
];

#[test]
fn a_failing_read_ends_the_command(rt: HostRuntime) {
    for (failing, line) in &READS {
        let devices = Devices {
            read: 7,
            failing_read: *failing,
            ..SOUND
        };
        let ended = controller(&rt, rt.alloc(), &devices);
        assert!(&rt; ended.is(Status::ReadFault, b"", line), "read {failing}");
    }
}

/// How many bytes of a text are there once so many puts took at most five bytes each of one of its lines.
fn taken_by(text: &[u8], puts: u64) -> usize {
    let mut left = puts;
    let mut of_put = 0u32;
    let mut taken = 0;
    for (at, byte) in text.iter().enumerate() {
        if left == 0 {
            return taken;
        }
        of_put = of_put.saturating_add(1);
        if of_put == 5 || *byte == b'\n' {
            left -= 1;
            of_put = 0;
            taken = at + 1;
        }
    }
    taken
}

#[test]
fn a_failing_put_leaves_what_was_put_before(rt: HostRuntime) {
    for failing in 1..61 {
        let devices = Devices {
            put: 5,
            failing_out: failing,
            ..SOUND
        };
        let ended = controller(&rt, rt.alloc(), &devices);
        let taken = taken_by(TRACE.as_bytes(), failing - 1);
        let out = ended.out.as_slice();
        let is_prefix = out.len() == taken && TRACE.as_bytes().starts_with(out);
        assert!(&rt; is_prefix, "put {failing}");
        assert!(&rt; ended.status == Status::WriteFault, "put {failing}");
        assert!(&rt; ended.err.is_empty(), "put {failing}");
    }
}

#[test]
fn sound_devices_get_the_whole_trace(rt: HostRuntime) {
    for put in [5, 4096] {
        let ended = controller(&rt, rt.alloc(), &Devices { put, ..SOUND });
        assert!(&rt;
            ended.is(Status::Done, TRACE.as_bytes(), ""),
            "{put} bytes a put"
        );
    }
}

const OVERFLOW: &str =
    "model M Integer x(start = 9223372036854775806); equation when Clock(1,2) then x = previous(x) + 1; end when; end M;\n";

#[test]
fn a_fault_that_cannot_be_told_is_a_write_fault(rt: HostRuntime) {
    let words = owned(&rt, rt.alloc(), &["m", "--stop", "1"]);
    let devices = Devices {
        failing_err: 1,
        ..SOUND
    };
    let texts = (OVERFLOW.as_bytes(), TABLE.as_bytes());
    let ended = run(&rt, rt.alloc(), &words, texts, &devices, &OpenGate);
    let out = b"time,x\n0,9223372036854775807\n";
    assert!(&rt; ended.is(Status::WriteFault, out, ""));
}

#[test]
fn a_file_that_is_not_there_is_told(rt: HostRuntime) {
    let words = owned(&rt, rt.alloc(), &["n", "--stop", "1"]);
    let texts = (OVERFLOW.as_bytes(), TABLE.as_bytes());
    let ended = run(&rt, rt.alloc(), &words, texts, &SOUND, &OpenGate);
    assert!(&rt; ended.is(Status::ReadFault, b"", "read fault: n\n"));
}
