ghost use Rattle.std.specs.Prelude.{IfErr, IfOk};
ghost use Rattle.flat_model.specs.Models.{IsModel};
ghost use Rattle.command_words.specs.Choice.{choice_of};
ghost use Rattle.command_answer.specs.Actions.{model_of};
ghost use Rattle.command_answer.specs.Calls.{Outside, reads_in};
ghost use Rattle.command_stages.specs.Ends.{Halts, IsPrintable};
ghost use Rattle.command_stages.specs.Reading.{IsStepOf, KeepsShelf};
ghost use Rattle.command_stages.specs.Segments.{HasFewMembers};

use command_stages::{End, source_of, tree_of, typed_of};
use command_words::Command;
use flat_model::FlatModel;
use mo_flatten::flatten;
use outside_io::Shelf;
use std::alloc::Global;

/// The flat model that a command asks for: that of its class, or of the last class of its file.
///
/// # Errors
///
/// Where the model is in a file, a fault of reading, or L0 at the model where it has more than 1,048,576 bytes; the first of L1 to L4, S1 to S3, N1 to N11
/// and Y1 to Y5 in this order of the stages that is broken, or want of memory.
///
/// Source: this project's own order of the stages.
pub fn model_of<'a, S: Shelf>(
    alloc: Global,
    shelf: &mut S,
    command: &Command<'a>,
) -> Result<FlatModel, End<'a>>
    requires { HasFewMembers command.now.mode }
    ensures made { (o : Outside) → IsStepOf o (S.held shelf.old) (S.gives_empty shelf.old) (S.faults shelf.old) (S.faults shelf.new) →
        IfOk result (model_of (reads_in o) (choice_of command.now)).makes }
    ensures model { IfOk result IsModel }
    ensures ended { (o : Outside) → IsStepOf o (S.held shelf.old) (S.gives_empty shelf.old) (S.faults shelf.old) (S.faults shelf.new) →
        IfErr result (Halts (model_of (reads_in o) (choice_of command.now))) }
    ensures short { IfErr result IsPrintable }
    ensures shelf { KeepsShelf (S.held shelf.old) (S.held shelf.new) (S.gives_empty shelf.old) (S.gives_empty shelf.new) (S.faults shelf.old) (S.faults shelf.new) }
{
    let text = source_of(alloc, shelf, command.mode, command.model)?;
    let bytes = text.as_slice();
    let tree = tree_of(alloc, bytes)?;
    let raw = flatten(alloc, bytes, &tree, command.class)?;
    Ok(typed_of(alloc, &raw)?)
}
