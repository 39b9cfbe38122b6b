//! The program: `clockrun MODEL --stop T [--table FILE] [--class NAME] [--workers N] [--mode MODE]`.
#![tactic(auto)]

use clocked_run::{Status, clocked_run};
use outside_io::{ErrSink, FileShelf, OpenGate, OutSink, put_all};
use std::alloc::Global;
use std::io::{BufWriter, ErrorKind, Stderr, Stdout, Write};
use std::process::ExitCode;
use std::rt::Files;
use std::thread::Threads;

/// How many bytes of out are gathered before they are passed on in one piece.
const OUT_ROOM: usize = 65_536;

/// More than the longest line of err.
const ERR_ROOM: usize = 8_192;

/// The words after the program's name. A word that is no UTF-8 is no word of a command.
fn words(rt: &HostRuntime) -> Result<Vec<String>, Status> {
    let mut args = match std::env::args(rt) {
        Ok(args) => args,
        Err(error) if error.kind() == ErrorKind::OutOfMemory => return Err(Status::NoMemory),
        Err(_) => return Err(Status::Usage),
    };
    let _program = args.next();
    args.collect(rt.alloc()).map_err(|_| Status::NoMemory)
}

/// Puts the line of a status that comes before the command is known.
fn refused(rt: &HostRuntime, status: Status) -> Status {
    let mut err = ErrSink::new(rt.stderr());
    let line: &[u8] = if status == Status::Usage {
        b"usage: words\n"
    } else {
        b"no memory\n"
    };
    put_all(&mut err, line).map_or(Status::WriteFault, |()| status)
}

/// Passes on what was gathered, out first and then err. Where out fails, or failed before, nothing is passed on to err.
fn passed_on(status: Status, mut out: BufWriter<Stdout>, mut err: BufWriter<Stderr>) -> Status {
    if status == Status::WriteFault || out.flush().is_err() {
        let (_out, _rest) = out.into_parts();
        let (_err, _line) = err.into_parts();
        return Status::WriteFault;
    }
    match err.flush() {
        Ok(()) => status,
        Err(_) => {
            let (_err, _line) = err.into_parts();
            Status::WriteFault
        }
    }
}

/// Runs the command of the words over the files and the two outputs of the machine.
fn command<R: Threads + Files + Sync>(
    rt: &R,
    alloc: Global,
    words: &[String],
    stdout: Stdout,
    stderr: Stderr,
) -> Result<Status, Status> {
    let no_memory = |_| Status::NoMemory;
    let mut out = BufWriter::with_capacity(alloc, OUT_ROOM, stdout).map_err(no_memory)?;
    let mut err = BufWriter::with_capacity(alloc, ERR_ROOM, stderr).map_err(no_memory)?;
    let mut shelf = FileShelf::new(rt);
    let status = clocked_run(
        rt,
        alloc,
        words,
        &mut shelf,
        &mut OutSink::new(&mut out),
        &mut ErrSink::new(&mut err),
        &OpenGate,
    );
    Ok(passed_on(status, out, err))
}

fn main(rt: HostRuntime) -> ExitCode {
    let ended = words(&rt).and_then(|words| {
        command(&rt, rt.alloc(), words.as_slice(), rt.stdout(), rt.stderr())
    });
    let status = match ended {
        Ok(status) => status,
        Err(status) => refused(&rt, status),
    };
    ExitCode::from(status.number())
}
