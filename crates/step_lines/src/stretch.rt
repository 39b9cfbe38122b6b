ghost use Rattle.std.specs.Prelude.{◌≡◌, ◌++◌, ◌∷◌, [], OnOk, IfErr};
ghost use Rattle.step_code.specs.declared.compile.NoCode.TheVariants.{Memory};
ghost use Rattle.step_code.specs.Code.{places_of};
ghost use Rattle.step_lines.specs.Stretches.{lines_of, Prepares};

use flat_model::Expr;
use std::alloc::Global;
use step_code::{Backward, Instr, NoCode, Places, emit};

/// An equation `name = side`, and the cell of its name.
#[derive(Clone, Copy, Drop)]
pub struct Line<'a> {
    pub name: u32,
    pub cell: u32,
    pub side: &'a Expr,
}

/// The code of several equations, one behind the other.
#[derive(Drop)]
pub struct Stretch {
    pub code: Vec<Instr>,
    /// For each equation how many instructions there are from its first one to the last of all.
    pub marks: Vec<usize>,
}

/// Puts a mark behind the others.
fn mark(marks: &mut Vec<usize>, count: usize) -> Result<(), NoCode>
    ensures made { OnOk result (marks.new.items ≡ marks.old.items ++ count ∷ []) }
    ensures refused { IfErr result (λ kind. kind ≡ Memory) }
{
    match marks.push(count) {
        Ok(()) => Ok(()),
        Err(_) => Err(NoCode::Memory),
    }
}

/// The code of equations in their order, each with the cells from `free` on as its own. The errors are those of the
/// equations' sides: `Unknown` comes only where one of them is not known, `Large` only where the first free cell and
/// the number of all instructions have together no number of 32 bits.
pub fn prepare_lines(
    alloc: Global,
    places: &Places<'_>,
    lines: &[Line<'_>],
    free: u32,
) -> Result<Stretch, NoCode>
    ensures { Prepares (places_of places.now) free (lines_of lines.now) result }
{
    let mut out = Backward::new(alloc);
    let mut marks = Vec::new(alloc);
    let mut i = lines.len();
    while 0 < i {
        i -= 1;
        let line = lines[i];
        emit(&mut out, places, line.side, line.cell, free)?;
        mark(&mut marks, out.len())?;
    }
    marks.reverse();
    Ok(Stretch {
        code: out.finish(),
        marks,
    })
}
