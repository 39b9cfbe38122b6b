ghost use Rattle.std.specs.Prelude.{◌≡◌, ◌≤◌, ◌++◌, codes};
ghost use Rattle.command_stages.specs.Ends.{IsPrintable};
ghost use Rattle.clocked_run.specs.private.Putting.{PutsLine, answer_of};

use command_answer::Status;
use command_stages::End;
use outside_io::{Sink, put_all};
use trace_print::refusal;

/// Puts the line of what ended a command early on err, and gives the status.
pub fn report<E: Sink>(end: &End<'_>, err: &mut E) -> Status
    requires { IsPrintable end.now }
    ensures puts { PutsLine (answer_of end.now).status (answer_of end.now).err result (record { old = E.text err.old; new = E.text err.new; before = E.faults err.old; after = E.faults err.new }) }
    ensures counts { E.faults err.old ≤ E.faults err.new }
{
    match end {
        End::Usage(fault) => put_line(err, Status::Usage, fault.line().as_bytes()),
        End::Refused { code, place } => {
            let line = refusal(*code, place);
            put_line(err, Status::Refused, line.bytes())
        }
        End::ReadFault(name) => put_read_fault(err, name),
        End::NoMemory => put_line(err, Status::NoMemory, b"no memory\n"),
    }
}

fn put_line<E: Sink>(err: &mut E, status: Status, line: &[u8]) -> Status
    ensures puts { PutsLine status line.now result (record { old = E.text err.old; new = E.text err.new; before = E.faults err.old; after = E.faults err.new }) }
    ensures counts { E.faults err.old ≤ E.faults err.new }
{
    match put_all(err, line) {
        Ok(()) => status,
        Err(_) => Status::WriteFault,
    }
}

/// Puts the line of a read fault in three pieces, so that it takes no memory.
fn put_read_fault<E: Sink>(err: &mut E, name: &str) -> Status
    ensures puts { PutsLine Status.ReadFault (codes "read fault: " ++ name.now ++ codes "\n") result (record { old = E.text err.old; new = E.text err.new; before = E.faults err.old; after = E.faults err.new }) }
    ensures counts { E.faults err.old ≤ E.faults err.new }
{
    match put_all(err, b"read fault: ") {
        Ok(()) => {}
        Err(_) => return Status::WriteFault,
    }
    match put_all(err, name.as_bytes()) {
        Ok(()) => {}
        Err(_) => return Status::WriteFault,
    }
    put_line(err, Status::ReadFault, b"\n")
}
