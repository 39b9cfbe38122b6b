//! The first of the numbers that pairs join.
ghost use Rattle.std.specs.Prelude.{◌≡◌, ℕ, ◌<◌, All, List, length, IfOk, vec_len, slice_index_or, []};
ghost use Rattle.mo_connect.specs.Chain.{AreBelow};
ghost use Rattle.mo_connect.specs.Classes.{AreClasses};
ghost use Rattle.base_partition.specs.private.First.{IsFirst, Marks, AllMarked};

use mo_connect::{Pair, sets};
use std::alloc::{AllocError, Global};
use sync_values::List;

/// Gives each number of a class the first of them.
fn mark(first: &mut [u32], class: &[u32])
    requires { All (λ x. x < length first.old) class.now }
    ensures length { length first.new ≡ length first.old }
    ensures marks { Marks class.now first.old first.new }
{
    let Some(least) = class.first() else {
        return;
    };
    for x in class {
        first[*x as usize] = *least;
    }
}

/// Gives each number of each class the first of them.
fn mark_all(first: &mut [u32], classes: &[List<u32>])
    requires { All (All (λ x. x < length first.old)) classes.now }
    ensures length { length first.new ≡ length first.old }
    ensures marks { AllMarked (length classes.now) classes.now first.old first.new }
{
    for class in classes {
        mark(first, class.as_slice());
    }
}

/// Each number by itself.
fn alone(alloc: Global, count: u32) -> Result<Vec<u32>, AllocError>
    ensures length { IfOk result (λ first. vec_len first ≡ count) }
    ensures own { IfOk result (λ first. (x : ℕ) → x < count → slice_index_or first.items x 0 ≡ x) }
{
    let mut first = Vec::with_capacity(alloc, count as usize)?;
    for x in 0..count {
        first.push(x)?;
    }
    Ok(first)
}

/// For each number the least one that a chain of pairs joins it to.
pub(crate) fn firsts(alloc: Global, count: u32, pairs: &List<Pair>) -> Result<Vec<u32>, AllocError>
    requires { AreBelow count pairs.now }
    ensures length { IfOk result (λ first. vec_len first ≡ count) }
    ensures firsts { IfOk result (λ first. (x : ℕ) → x < count → IsFirst pairs.now x (slice_index_or first.items x 0)) }
{
    let Ok(classes) = sets(alloc, count, pairs) else {
        return Err(AllocError);
    };
    let mut first = alone(alloc, count)?;
    mark_all(&mut first, classes.as_slice());
    Ok(first)
}
