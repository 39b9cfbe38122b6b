//! What equations read, turned into what reads each name.
ghost use Rattle.std.specs.Prelude.{◌≡◌, ℕ, ◌<◌, ◌+◌, ◌^◌, ◌==◌, ◌&&◌, ◌++◌, [], ◌∷◌, All, length, IfOk, OnOk, vec_len, cond};
ghost use Rattle.eq_orient.specs.Gathered.{count_of};
ghost use Rattle.eq_order.specs.private.Reaching.{list_at, AreMirrored};

use std::alloc::{AllocError, Global};
use sync_values::List;

/// Adds a number at the end.
fn add(list: &mut List<u32>, i: u32) -> Result<(), AllocError>
    ensures { OnOk result (list.new ≡ list.old ++ i ∷ []) }
{
    list.push(i)?;
    Ok(())
}

/// Puts an equation into the list of each name that it reads.
fn note(readers: &mut [List<u32>], names: &[u32], i: u32) -> Result<(), AllocError>
    requires known { All (λ x. x < length readers.old) names.now }
    ensures noted { OnOk result ((j y : ℕ) → count_of j (list_at readers.new y) ≡ count_of j (list_at readers.old y) + cond (j == i) (count_of y names.now) 0) }
{
    for name in names {
        add(&mut readers[*name as usize], i)?;
    }
    Ok(())
}

/// As many empty lists.
fn empty_lists(alloc: Global, count: usize) -> Result<Vec<List<u32>>, AllocError>
    ensures long { IfOk result (λ lists. vec_len lists ≡ count) }
    ensures empty { IfOk result (λ lists. (y : ℕ) → list_at lists.items y ≡ []) }
{
    let mut lists = Vec::with_capacity(alloc, count)?;
    for _turn in 0..count {
        lists.push(List::new(alloc))?;
    }
    Ok(lists)
}

/// For each name the equations that read it.
pub(crate) fn mirrored(
    alloc: Global,
    reads: &[List<u32>],
    count: usize,
) -> Result<Vec<List<u32>>, AllocError>
    requires small { length reads.now < 2 ^ 32 }
    requires known { All (All (λ x. x < count)) reads.now }
    ensures long { IfOk result (λ readers. vec_len readers ≡ count) }
    ensures mirrored { IfOk result (λ readers. AreMirrored reads.now readers.items) }
{
    let mut readers = empty_lists(alloc, count)?;
    for i in 0..reads.len() {
        note(&mut readers, reads[i].as_slice(), i as u32)?;
    }
    Ok(readers)
}
