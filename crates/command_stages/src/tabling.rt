ghost use Rattle.std.specs.Prelude.{IfErr, IfOk};
ghost use Rattle.flat_model.specs.Models.{IsModel};
ghost use Rattle.flat_model.specs.Tables.{IsTableOf};
ghost use Rattle.command_answer.specs.Actions.{table_of};
ghost use Rattle.command_answer.specs.Calls.{Outside, reads_in};
ghost use Rattle.command_stages.specs.Ends.{Halts, IsPrintable};
ghost use Rattle.command_stages.specs.Reading.{IsStepOf, KeepsShelf, name_of};

use crate::end::End;
use crate::reading::read_file;
use flat_model::{FlatModel, Place, Table};
use input_table::{no_table, read_table};
use outside_io::Shelf;
use std::alloc::Global;

/// The most bytes of a table.
const TABLE_LIMIT: u64 = 16_777_216;

/// The table of the inputs of a model: that of a file, or the one of no inputs where none is given.
///
/// # Errors
///
/// L0 at the table where the file has more than 16,777,216 bytes, the first of I1 to I7 that it breaks, I2 where no file
/// is given and the model has an input, a fault of reading, or want of memory.
///
/// Source: this project's own.
pub fn table_of<'a, S: Shelf>(
    alloc: Global,
    shelf: &mut S,
    flat: &FlatModel,
    file: Option<&'a str>,
) -> Result<Table, End<'a>>
    requires { IsModel flat.now }
    ensures made { (o : Outside) → IsStepOf o (S.held shelf.old) (S.gives_empty shelf.old) (S.faults shelf.old) (S.faults shelf.new) →
        IfOk result (table_of (reads_in o) flat.now (name_of file.entry)).makes }
    ensures table { IfOk result (IsTableOf flat.now) }
    ensures ended { (o : Outside) → IsStepOf o (S.held shelf.old) (S.gives_empty shelf.old) (S.faults shelf.old) (S.faults shelf.new) →
        IfErr result (Halts (table_of (reads_in o) flat.now (name_of file.entry))) }
    ensures short { IfErr result IsPrintable }
    ensures shelf { KeepsShelf (S.held shelf.old) (S.held shelf.new) (S.gives_empty shelf.old) (S.gives_empty shelf.new) (S.faults shelf.old) (S.faults shelf.new) }
{
    match file {
        None => Ok(no_table(alloc, flat)?),
        Some(name) => {
            let bytes = read_file(alloc, shelf, name, TABLE_LIMIT, Place::Table)?;
            Ok(read_table(alloc, flat, bytes.as_slice())?)
        }
    }
}
