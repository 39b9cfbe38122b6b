//! Several equations as prepared code, one behind the other.
ghost use Rattle.std.specs.Prelude.{◌≡◌, ◌++◌, ◌∷◌, [], OnOk, IfErr};
ghost use Rattle.step_code.specs.declared.compile.NoCode.TheVariants.{Memory};
ghost use Rattle.step_lines.specs.Stretches.{lines_of, Prepares};
ghost use Rattle.keyed_code.specs.Table.{table_of};

use crate::emitting::emit;
use crate::table::KeyTable;
use std::alloc::Global;
use step_code::{Backward, NoCode};
use step_lines::{Line, Stretch};

/// Puts a mark behind the others.
fn mark(marks: &mut Vec<usize>, count: usize) -> Result<(), NoCode>
    ensures made { OnOk result (marks.new.items ≡ marks.old.items ++ count ∷ []) }
    ensures refused { IfErr result (λ kind. kind ≡ Memory) }
{
    match marks.push(count) {
        Ok(()) => Ok(()),
        Err(_) => Err(NoCode::Memory),
    }
}

/// The code of equations in their order, each with the cells from `free` on as its own. The errors are those of the
/// equations' sides: `Unknown` comes only where one of them is not known, `Large` only where the first free cell and
/// the number of all instructions have together no number of 32 bits.
pub fn prepare_stretch(
    alloc: Global,
    table: &KeyTable<'_>,
    lines: &[Line<'_>],
    free: u32,
) -> Result<Stretch, NoCode>
    ensures { Prepares (table_of table.now) free (lines_of lines.now) result }
{
    let mut out = Backward::new(alloc);
    let mut marks = Vec::new(alloc);
    let mut i = lines.len();
    while 0 < i {
        i -= 1;
        let line = lines[i];
        emit(&mut out, table, line.side, line.cell, free)?;
        mark(&mut marks, out.len())?;
    }
    marks.reverse();
    Ok(Stretch {
        code: out.finish(),
        marks,
    })
}
