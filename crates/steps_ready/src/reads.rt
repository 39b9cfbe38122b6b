//! The names that unclocked equations read.
ghost use Rattle.std.specs.Prelude.{◌≡◌, Some, slice_get, IfOk};
ghost use Rattle.flat_model.specs.declared.equation.Equation.{Equation};
ghost use Rattle.tree_step.specs.Changed.{HasReads, AreReadsOf};

use eq_orient::{Manner, gather};
use flat_model::{Equation, Expr, FlatModel};
use std::alloc::{AllocError, Global};
use sync_values::List;
use tree_step::{Entry, Reads};

/// No reads.
fn none(alloc: Global) -> Reads {
    Reads {
        bare: List::new(alloc),
        held: List::new(alloc),
    }
}

/// The names that an equation reads at a moment.
fn reads_of(alloc: Global, equation: &Equation) -> Result<Reads, AllocError>
    ensures { IfOk result (HasReads equation.now) }
{
    let Equation::Valued { left, right, .. } = equation else {
        return Ok(none(alloc));
    };
    let mut bare = Vec::new(alloc);
    gather(left, Manner::Bare, &mut bare)?;
    gather(right, Manner::Bare, &mut bare)?;
    let mut held = Vec::new(alloc);
    gather(left, Manner::Held, &mut held)?;
    gather(right, Manner::Held, &mut held)?;
    gather(left, Manner::Converted, &mut held)?;
    gather(right, Manner::Converted, &mut held)?;
    Ok(Reads {
        bare: List::from_vec(bare),
        held: List::from_vec(held),
    })
}

/// The names that the equation of a use reads at a moment.
fn reads_by(alloc: Global, flat: &FlatModel, entry: Entry) -> Result<Reads, AllocError>
    ensures { IfOk result (λ reads. (equation : Equation) → slice_get flat.now.equations entry.equation ≡ Some equation → HasReads equation reads) }
{
    match flat.equations.as_slice().get(entry.equation as usize) {
        Some(equation) => reads_of(alloc, equation),
        None => Ok(none(alloc)),
    }
}

/// For each use the names that its equation reads at a moment. The cost is linear in the equations.
pub(crate) fn note_reads(
    alloc: Global,
    flat: &FlatModel,
    entries: &[Entry],
) -> Result<List<Reads>, AllocError>
    ensures { IfOk result (AreReadsOf flat.now.equations entries.now) }
{
    let mut reads = List::with_capacity(alloc, entries.len())?;
    for entry in entries {
        reads.push(reads_by(alloc, flat, *entry)?)?;
    }
    Ok(reads)
}
