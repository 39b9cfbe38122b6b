//! A call of a command over files and outputs in memory.
ghost use Rattle.std.specs.Prelude.{◌<◌, ◌≡◌};

use clocked_run::{Status, clocked_run};
use outside_io::{Gate, MemShelf, MemSink, OpenGate};
use std::alloc::Global;
use std::process::Abort;
use std::thread::Threads;

/// The words of a command, the text of its model, which is the file `m`, and that of its table, which is the file `t`; and
/// the status, out and err that it ends with.
pub(crate) type Call = (
    &'static [&'static str],
    &'static str,
    &'static str,
    Status,
    &'static str,
    &'static str,
);

/// How the files and outputs of a command work: at most so many bytes a read, the number of the read that fails, at most
/// so many bytes a put on out, and the numbers of the puts that fail on out and on err. No number 0 is counted.
#[derive(Clone, Copy)]
pub(crate) struct Devices {
    pub(crate) read: usize,
    pub(crate) failing_read: u64,
    pub(crate) put: usize,
    pub(crate) failing_out: u64,
    pub(crate) failing_err: u64,
}

pub(crate) const SOUND: Devices = Devices {
    read: 4096,
    failing_read: 0,
    put: 4096,
    failing_out: 0,
    failing_err: 0,
};

/// What a command ended with.
#[derive(Drop)]
pub(crate) struct Ended {
    pub(crate) status: Status,
    pub(crate) out: Vec<u8>,
    pub(crate) err: Vec<u8>,
}

impl Ended {
    /// Whether this is what it ended with.
    pub(crate) fn is(&self, status: Status, out: &[u8], err: &str) -> bool {
        self.status == status && self.out.as_slice() == out && self.err.as_slice() == err.as_bytes()
    }
}

pub(crate) fn owned(rt: &impl Abort, alloc: Global, words: &[&str]) -> Vec<String> {
    let mut all = Vec::new(alloc);
    for word in words {
        let word = String::from_str(alloc, word).expect(rt, "memory");
        all.push(word).expect(rt, "memory");
    }
    all
}

pub(crate) fn file(rt: &impl Abort, alloc: Global, name: &str, text: &[u8]) -> (String, Vec<u8>) {
    let name = String::from_str(alloc, name).expect(rt, "memory");
    let text = Vec::from_slice(alloc, text).expect(rt, "memory");
    (name, text)
}

pub(crate) fn sink(rt: &impl Abort, alloc: Global, room: usize, put: usize, failing: u64) -> MemSink
    requires { 0 < put }
{
    let failing = Vec::from_slice(alloc, &[failing]).expect(rt, "memory");
    MemSink::new(alloc, room, put, failing).expect(rt, "memory")
}

/// Runs a command over the files `m` and `t`.
pub(crate) fn run<R: Threads + Abort + Sync, G: Gate + Sync>(
    rt: &R,
    alloc: Global,
    words: &[String],
    texts: (&[u8], &[u8]),
    devices: &Devices,
    gate: &G,
) -> Ended {
    assert!(rt; devices.read > 0 && devices.put > 0);
    let mut files = Vec::new(alloc);
    files
        .push(file(rt, alloc, "m", texts.0))
        .expect(rt, "memory");
    files
        .push(file(rt, alloc, "t", texts.1))
        .expect(rt, "memory");
    let failing = Vec::from_slice(alloc, &[devices.failing_read]).expect(rt, "memory");
    let mut shelf = MemShelf::new(files, devices.read, failing);
    let mut out = sink(rt, alloc, 1 << 20, devices.put, devices.failing_out);
    let mut err = sink(rt, alloc, 4096, 4096, devices.failing_err);
    let status = clocked_run(rt, alloc, words, &mut shelf, &mut out, &mut err, gate);
    Ended {
        status,
        out: Vec::from_slice(alloc, out.text()).expect(rt, "memory"),
        err: Vec::from_slice(alloc, err.text()).expect(rt, "memory"),
    }
}

/// Runs a command over sound files and outputs.
pub(crate) fn answer_of<R: Threads + Abort + Sync>(
    rt: &R,
    alloc: Global,
    words: &[&str],
    model: &[u8],
    table: &[u8],
) -> Ended {
    let words = owned(rt, alloc, words);
    run(rt, alloc, &words, (model, table), &SOUND, &OpenGate)
}

fn check<R: Threads + Abort + Sync>(rt: &R, alloc: Global, call: &Call) {
    let ended = answer_of(rt, alloc, call.0, call.1.as_bytes(), call.2.as_bytes());
    let holds = ended.is(call.3, call.4.as_bytes(), call.5);
    assert!(rt; holds, "{} must end with {}{}", call.1, call.4, call.5);
}

pub(crate) fn check_all<R: Threads + Abort + Sync>(rt: &R, alloc: Global, calls: &[Call]) {
    for call in calls {
        check(rt, alloc, call);
    }
}
