//! The cells of lines, and where the values of their names stand.
ghost use Rattle.std.specs.Prelude.{◌≡◌, ◌≤◌, ◌^◌, [], length, IfOk, IfErr};
ghost use Rattle.cell_keys.specs.Cells.{with_keys};
ghost use Rattle.flat_model.specs.Typing.{types_in};
ghost use Rattle.part_layout.specs.Keyed.{is_boolean as boolean_in};
ghost use Rattle.part_layout.specs.LayoutLaws.{AreLaidOutFor};
ghost use Rattle.part_layout.specs.Reads.{keys_of_lines};
ghost use Rattle.part_code.specs.private.Lines.{AreLandedTo, AreCodeLines};
ghost use Rattle.part_code.specs.private.Refused.{IsDueTo};

use crate::coded::Landing;
use cell_keys::{CellKey, CellKeys, NoCell};
use flat_model::{FlatName, NameKind};
use part_layout::{PartLine, lay_out};
use std::alloc::Global;
use step_code::NoCode;
use step_lines::Line;

/// The cells of lines.
pub(crate) fn keys_for(alloc: Global, lines: &[PartLine<'_>]) -> Result<CellKeys, NoCode>
    ensures keys { IfOk result (λ keys. keys ≡ with_keys [] (keys_of_lines lines.now)) }
    ensures refused { IfErr result (IsDueTo (2 ^ 32 ≤ length (with_keys [] (keys_of_lines lines.now)))) }
{
    match lay_out(alloc, lines) {
        Ok(keys) => Ok(keys),
        Err(NoCell::Memory) => Err(NoCode::Memory),
        Err(NoCell::Large) => Err(NoCode::Large),
    }
}

/// Whether a name is a Boolean.
fn is_boolean(names: &[FlatName], name: u32) -> bool
    ensures { result ≡ boolean_in (types_in names.now name) }
{
    match names.get(name as usize) {
        Some(found) => match found.kind {
            NameKind::Boolean => true,
            NameKind::Integer => false,
            NameKind::Clock => false,
        },
        None => false,
    }
}

/// Where the value of each line's name stands.
pub(crate) fn landings_for(
    alloc: Global,
    names: &[FlatName],
    keys: &CellKeys,
    lines: &[PartLine<'_>],
) -> Result<Vec<Landing>, NoCode>
    ensures landings { IfOk result (λ landings. AreLandedTo names.now keys.now lines.now (length lines.now) landings.items) }
    ensures refused { IfErr result (IsDueTo (AreLaidOutFor keys.now lines.now → ⊥)) }
{
    let mut landings = Vec::new(alloc);
    for line in lines {
        let cell = keys
            .number(CellKey::Value(line.name))
            .ok_or(NoCode::Unknown)?;
        let landing = Landing {
            cell,
            boolean: is_boolean(names, line.name),
        };
        landings.push(landing).map_err(|_| NoCode::Memory)?;
    }
    Ok(landings)
}

/// The lines with the cells of their names.
pub(crate) fn code_lines<'a>(
    alloc: Global,
    keys: &CellKeys,
    lines: &[PartLine<'a>],
) -> Result<Vec<Line<'a>>, NoCode>
    ensures lines { IfOk result (λ coded. AreCodeLines keys.now lines.now (length lines.now) coded.items) }
    ensures refused { IfErr result (IsDueTo (AreLaidOutFor keys.now lines.now → ⊥)) }
{
    let mut coded = Vec::new(alloc);
    for line in lines {
        let cell = keys
            .number(CellKey::Value(line.name))
            .ok_or(NoCode::Unknown)?;
        let one = Line {
            name: line.name,
            cell,
            side: line.side,
        };
        coded.push(one).map_err(|_| NoCode::Memory)?;
    }
    Ok(coded)
}
