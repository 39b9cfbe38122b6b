//! What the names of entries are by their equations.
ghost use Rattle.std.specs.Prelude.{◌≡◌, Some, None, length, slice_get, MatchOption, IfOk, IfErr};
ghost use Rattle.step_code.specs.declared.compile.NoCode.TheVariants.{Memory};
ghost use Rattle.undone_side.specs.Undone.{IsSolvedSide, IsUnsolved};
ghost use Rattle.part_code.specs.Coded.{IsSideOf};
ghost use Rattle.part_code.specs.Uncoded.{HasNoSide, HasNoCode};
ghost use Rattle.part_code.specs.private.Lines.{expr_of, AreSidesTo, AreJoinedTo};
ghost use Rattle.part_code.specs.private.Refused.{IsDueTo};

use flat_model::{Equation, Expr, FlatModel};
use part_layout::PartLine;
use std::alloc::Global;
use step_code::NoCode;
use tree_step::Entry;
use undone_side::{bare_side, solved_side};

/// What a name is by an equation: a side that stands in it, or one that was made.
#[derive(Drop)]
pub(crate) enum NameSide<'a> {
    Lent(&'a Expr),
    Made(Expr),
}

/// The expression of a side.
fn expression<'a>(side: &'a NameSide<'_>) -> &'a Expr
    ensures { result.now ≡ expr_of side.now }
{
    match side {
        NameSide::Lent(side) => side,
        NameSide::Made(side) => side,
    }
}

/// The equation of an entry.
fn equation_of<'a>(flat: &'a FlatModel, entry: Entry) -> Option<&'a Equation>
    ensures { MatchOption result (slice_get flat.now.equations entry.equation ≡ None) (λ equation. slice_get flat.now.equations entry.equation ≡ Some equation.now) }
{
    flat.equations.as_slice().get(entry.equation as usize)
}

/// The side of an equation that is solved for a name.
fn side_in<'a>(alloc: Global, equation: &'a Equation, name: u32) -> Result<NameSide<'a>, NoCode>
    ensures side { IfOk result (λ side. IsSolvedSide name equation.now (expr_of side)) }
    ensures refused { IfErr result (IsDueTo (IsUnsolved name equation.now)) }
{
    if let Some(side) = bare_side(equation, name) {
        return Ok(NameSide::Lent(side));
    }
    match solved_side(alloc, equation, name) {
        Ok(Some(side)) => Ok(NameSide::Made(side)),
        Ok(None) => Err(NoCode::Unknown),
        Err(_) => Err(NoCode::Memory),
    }
}

/// The side of an entry's equation.
fn side_of<'a>(alloc: Global, flat: &'a FlatModel, entry: Entry) -> Result<NameSide<'a>, NoCode>
    ensures side { IfOk result (λ side. IsSideOf flat.now.equations entry (expr_of side)) }
    ensures refused { IfErr result (IsDueTo (HasNoSide flat.now.equations entry)) }
{
    match equation_of(flat, entry) {
        Some(equation) => side_in(alloc, equation, entry.name),
        None => Err(NoCode::Unknown),
    }
}

/// The sides of entries.
pub(crate) fn sides_for<'a>(
    alloc: Global,
    flat: &'a FlatModel,
    entries: &[Entry],
) -> Result<Vec<NameSide<'a>>, NoCode>
    ensures sides { IfOk result (λ sides. AreSidesTo flat.now.equations entries.now (length entries.now) sides.items) }
    ensures refused { IfErr result (IsDueTo (HasNoCode flat.now.equations flat.now.names entries.now)) }
{
    let mut sides = Vec::new(alloc);
    for entry in entries {
        let side = side_of(alloc, flat, *entry)?;
        if sides.push(side).is_err() {
            return Err(NoCode::Memory);
        }
    }
    Ok(sides)
}

/// The lines of entries, by their sides.
pub(crate) fn lines_for<'a>(
    alloc: Global,
    entries: &[Entry],
    sides: &'a [NameSide<'_>],
) -> Result<Vec<PartLine<'a>>, NoCode>
    requires { length sides.now ≡ length entries.now }
    ensures lines { IfOk result (λ lines. AreJoinedTo entries.now sides.now (length entries.now) lines.items) }
    ensures refused { IfErr result (λ kind. kind ≡ Memory) }
{
    let mut lines = Vec::new(alloc);
    let mut i = 0;
    while i < entries.len() {
        let entry = entries[i];
        let line = PartLine {
            equation: entry.equation,
            name: entry.name,
            class: entry.clock,
            side: expression(&sides[i]),
        };
        lines.push(line).map_err(|_| NoCode::Memory)?;
        i += 1;
    }
    Ok(lines)
}
