ghost use Rattle.std.specs.Prelude.{◌≡◌, []};
ghost use Rattle.cell_keys.specs.Cells.{Adds};
ghost use Rattle.part_layout.specs.Reads.{keys_of_line, keys_of_lines, Lays};

use crate::reads::add_reads;
use cell_keys::{CellKey, CellKeys, NoCell, Sight};
use flat_model::Expr;
use std::alloc::Global;

/// An equation between a name and a side, of a class, by its number in the flat model.
#[derive(Clone, Copy, Drop)]
pub struct PartLine<'a> {
    pub equation: u32,
    pub name: u32,
    pub class: u32,
    pub side: &'a Expr,
}

/// The cells of one equation.
fn add_line(keys: &mut CellKeys, line: &PartLine<'_>) -> Result<(), NoCell>
    ensures { Adds keys.old (keys_of_line line.now) keys.new result }
{
    keys.add(CellKey::Value(line.name))?;
    add_reads(keys, line.class, Sight::Now, line.side)
}

/// The cells of equations: their names' and those of what they read, in the order in which they stand. `Large` comes only
/// where 2^32 or more are needed.
pub fn lay_out(alloc: Global, lines: &[PartLine<'_>]) -> Result<CellKeys, NoCell>
    ensures { Lays (keys_of_lines lines.now) result }
{
    let mut keys = CellKeys::new(alloc);
    for line in lines {
        add_line(&mut keys, line)?;
    }
    Ok(keys)
}
