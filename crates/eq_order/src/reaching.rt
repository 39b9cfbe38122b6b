//! Uses, taken one after the other: the first equation that waits for one name alone and is solvable for it.
ghost use Rattle.std.specs.Prelude.{◌≡◌, ◌≢◌, ℕ, ◌<◌, ◌≤◌, ◌+◌, ◌^◌, true, false, [], ◌++◌, All, length, map, sum, slice_get, slice_index_or, IfOk, OnOk, MatchOption};
ghost use Rattle.std.specs.Ordering.{nat_cmp};
ghost use Rattle.std.specs.BTreeSet.{contains, btree_set_len};
ghost use Rattle.flat_model.specs.Uses.{IsSolvableFor};
ghost use Rattle.eq_orient.specs.Spine.{IsSpineOf};
ghost use Rattle.eq_order.specs.Order.{HasSpine};
ghost use Rattle.eq_orient.specs.Gathered.{count_of};
ghost use Rattle.eq_order.specs.private.Reaching.{is_waiting, waiting, list_at, CanTake, AreTaken, flags_after, AreMirrored, AreLeft};

use crate::uses::Use;
use eq_orient::kinds::Spine;
use eq_orient::{lags, spine};
use flat_model::Equation;
use std::alloc::{AllocError, Global};
use std::collections::BTreeSet;
use sync_values::List;

/// The side on which an equation can be solved for a name.
fn solvable(equation: &Equation, name: u32) -> Option<Spine>
    ensures { MatchOption result (IsSolvableFor name equation.now → ⊥) (λ spine. IsSolvableFor name equation.now × IsSpineOf name equation.now spine.left) }
{
    let Some(spine) = spine(equation, name) else {
        return None;
    };
    if lags(equation, name) {
        return None;
    }
    Some(spine)
}

/// Whether a name is not reached; a name without a flag counts as reached.
pub(crate) fn waits(reached: &[bool], name: u32) -> bool
    ensures { result ≡ is_waiting reached.now name }
{
    !reached.get(name as usize).copied().unwrap_or(true)
}

/// The first of some names that is not reached.
fn first_waiting(reached: &[bool], names: &[u32]) -> Option<u32>
    ensures { result ≡ slice_get (waiting reached.now names.now) 0 }
{
    for name in names {
        if waits(reached, *name) {
            return Some(*name);
        }
    }
    None
}

/// How many names each equation waits for.
fn count_names(alloc: Global, reads: &[List<u32>]) -> Result<Vec<usize>, AllocError>
    ensures { IfOk result (λ left. left.items ≡ map length reads.now) }
{
    let mut left = Vec::with_capacity(alloc, reads.len())?;
    for names in reads {
        left.push(names.len())?;
    }
    Ok(left)
}

/// Takes one off for each equation that read a name, and notes those that wait for one name now.
fn count_down(
    readers: &[u32],
    left: &mut [usize],
    ready: &mut BTreeSet<usize>,
) -> Result<(), AllocError>
    requires enough { (i : ℕ) → count_of i readers.now ≤ slice_index_or left.old i 0 }
    ensures left { OnOk result ((i : ℕ) → slice_index_or left.new i 0 + count_of i readers.now ≡ slice_index_or left.old i 0) }
    ensures within { ((i : ℕ) → contains nat_cmp ready.old i ≡ true → i < length left.old) → OnOk result ((i : ℕ) → contains nat_cmp ready.new i ≡ true → i < length left.new) }
    ensures kept { OnOk result ((i : ℕ) → contains nat_cmp ready.old i ≡ true → contains nat_cmp ready.new i ≡ true) }
    ensures added { OnOk result ((i : ℕ) → slice_index_or left.new i 0 ≡ 1 → slice_index_or left.old i 0 ≢ 1 → contains nat_cmp ready.new i ≡ true) }
    ensures fewer { OnOk result (btree_set_len ready.new + sum left.new ≤ btree_set_len ready.old + sum left.old) }
{
    for i in readers {
        let i = *i as usize;
        left[i] -= 1;
        if left[i] == 1 {
            ready.insert(i)?;
        }
    }
    Ok(())
}

/// The use of an equation that waits for one name alone, where it is solvable for it.
fn use_of(
    equations: &[Equation],
    reads: &[List<u32>],
    left: &[usize],
    reached: &[bool],
    i: usize,
) -> Option<Use>
    requires small { length equations.now < 2 ^ 32 }
    requires long { length reads.now ≡ length equations.now }
    requires within { i < length left.now }
    requires counted { length left.now ≡ length equations.now }
    requires left { AreLeft reads.now reached.now left.now }
    ensures { MatchOption result
        ((x : ℕ) → CanTake equations.now reads.now reached.now i x → ⊥)
        (λ entry. (entry.equation ≡ i) × CanTake equations.now reads.now reached.now i entry.name × HasSpine equations.now entry) }
{
    if left[i] != 1 {
        return None;
    }
    let Some(name) = first_waiting(reached, reads[i].as_slice()) else {
        return None;
    };
    let Some(spine) = solvable(&equations[i], name) else {
        return None;
    };
    Some(Use {
        equation: i as u32,
        name,
        spine,
    })
}

/// The uses of some equations, from flags of the names that are reached on.
pub(crate) fn taken(
    alloc: Global,
    equations: &[Equation],
    reads: &[List<u32>],
    readers: &[List<u32>],
    reached: &mut [bool],
) -> Result<List<Use>, AllocError>
    requires small { length equations.now < 2 ^ 32 }
    requires long { length reads.now ≡ length equations.now }
    requires wide { length readers.now ≡ length reached.old }
    requires mirrored { AreMirrored reads.now readers.now }
    requires fresh { (i : ℕ) → waiting reached.old (list_at reads.now i) ≡ list_at reads.now i }
    ensures taken { IfOk result (λ uses. AreTaken equations.now reads.now reached.old uses) }
    ensures flags { IfOk result (λ uses. reached.new ≡ flags_after reached.old uses) }
{
    let mut left = count_names(alloc, reads)?;
    let mut ready = BTreeSet::new(alloc);
    for i in 0..reads.len() {
        if left[i] == 1 {
            ready.insert(i)?;
        }
    }
    let mut uses = List::new(alloc);
    while let Some(i) = ready.pop_first() {
        if let Some(entry) = use_of(equations, reads, &left, reached, i) {
            reached[entry.name as usize] = true;
            count_down(
                readers[entry.name as usize].as_slice(),
                &mut left,
                &mut ready,
            )?;
            uses.push(entry)?;
        }
    }
    Ok(uses)
}
