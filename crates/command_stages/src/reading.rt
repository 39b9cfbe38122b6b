ghost use Rattle.std.specs.Prelude.{◌<◌, ◌^◌, ◌≤◌, IfErr, IfOk, length};
ghost use Rattle.trace_print.specs.Refusals.{IsShort};
ghost use Rattle.command_answer.specs.Calls.{Outside, reads_in};
ghost use Rattle.command_stages.specs.Ends.{Halts, IsPrintable};
ghost use Rattle.command_stages.specs.Reading.{IsStepOf, KeepsShelf};
ghost use Rattle.command_stages.specs.Segments.{file_of};

use crate::end::End;
use flat_model::Place;
use outside_io::{ReadEnd, Shelf, read_whole};
use std::alloc::Global;
use trace_print::Code;

/// A file of at most `limit` bytes; where it has more, L0 is broken at `place`.
#[tactic(auto, using(crate::proofs::Texts::file_makes, crate::proofs::Texts::file_too_long, crate::proofs::Texts::file_unread))]
pub fn read_file<'a, S: Shelf>(
    alloc: Global,
    shelf: &mut S,
    name: &'a str,
    limit: u64,
    place: Place,
) -> Result<Vec<u8>, End<'a>>
    requires limit { limit < 2 ^ 32 }
    requires short { IsShort place }
    ensures made { (o : Outside) → IsStepOf o (S.held shelf.old) (S.gives_empty shelf.old) (S.faults shelf.old) (S.faults shelf.new) →
        IfOk result (λ bytes. (file_of (reads_in o) limit place name.entry.now).makes bytes.items) }
    ensures few { IfOk result (λ bytes. length bytes.items ≤ limit) }
    ensures ended { (o : Outside) → IsStepOf o (S.held shelf.old) (S.gives_empty shelf.old) (S.faults shelf.old) (S.faults shelf.new) →
        IfErr result (Halts (file_of (reads_in o) limit place name.entry.now)) }
    ensures short { IfErr result IsPrintable }
    ensures shelf { KeepsShelf (S.held shelf.old) (S.held shelf.new) (S.gives_empty shelf.old) (S.gives_empty shelf.new) (S.faults shelf.old) (S.faults shelf.new) }
{
    match read_whole(alloc, shelf, name, limit) {
        Ok(bytes) => Ok(bytes),
        Err(ReadEnd::Failed) => Err(End::ReadFault(name)),
        Err(ReadEnd::TooLong) => Err(End::Refused {
            code: Code::L0,
            place,
        }),
        Err(ReadEnd::NoMemory) => Err(End::NoMemory),
    }
}
