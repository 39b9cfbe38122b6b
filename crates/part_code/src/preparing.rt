//! The whole preparation.
ghost use Rattle.std.specs.Prelude.{IfOk, IfErr, IfSome, IfNone};
ghost use Rattle.part_code.specs.Coded.{IsCodeOf};
ghost use Rattle.part_code.specs.Uncoded.{HasNoCode};
ghost use Rattle.part_code.specs.private.Refused.{IsDueTo};

use crate::coded::Coded;
use crate::laying::{code_lines, keys_for, landings_for};
use crate::sides::{lines_for, sides_for};
use crate::stretching::{room_for, stretches_for};
use flat_model::FlatModel;
use std::alloc::{AllocError, Global};
use step_code::NoCode;
use tree_step::Entry;

/// The code of entries, or why there is none.
fn code_of(alloc: Global, flat: &FlatModel, entries: &[Entry]) -> Result<Coded, NoCode>
    ensures code { IfOk result (IsCodeOf flat.now.equations flat.now.names entries.now) }
    ensures refused { IfErr result (IsDueTo (HasNoCode flat.now.equations flat.now.names entries.now)) }
{
    let names = flat.names.as_slice();
    let sides = sides_for(alloc, flat, entries)?;
    let lines = lines_for(alloc, entries, &sides)?;
    let keys = keys_for(alloc, &lines)?;
    let landings = landings_for(alloc, names, &keys, &lines)?;
    let coded = code_lines(alloc, &keys, &lines)?;
    let stretches = stretches_for(alloc, names, &keys, entries, &coded)?;
    let count = room_for(keys.len() as usize, &stretches);
    let words = Vec::from_elem(alloc, 0, count).map_err(|_| NoCode::Memory)?;
    Ok(Coded {
        keys,
        landings,
        stretches,
        words,
    })
}

/// The uses of a base partition as prepared code, given as entries by the places of their clocks. There is none only where
/// an equation cannot be solved for its name, where a side has no type, and where cells or instructions have no numbers of
/// 32 bits.
///
/// # Errors
///
/// Want of memory.
///
/// Source: this project's own.
pub fn prepare_code(
    alloc: Global,
    flat: &FlatModel,
    entries: &[Entry],
) -> Result<Option<Coded>, AllocError>
    ensures code { IfOk result (λ coded. IfSome coded (IsCodeOf flat.now.equations flat.now.names entries.now)) }
    ensures none { IfOk result (λ coded. IfNone coded (HasNoCode flat.now.equations flat.now.names entries.now)) }
{
    match code_of(alloc, flat, entries) {
        Ok(coded) => Ok(Some(coded)),
        Err(NoCode::Memory) => Err(AllocError),
        Err(NoCode::Unknown) => Ok(None),
        Err(NoCode::Large) => Ok(None),
    }
}
