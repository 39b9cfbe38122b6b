//! Classes and their numbers among the clocked ones.
ghost use Rattle.std.specs.Prelude.{◌≡◌, Bool, List, IfOk, IfSome, Contains, None, slice_get, slice_index_or};
ghost use Rattle.clock_check.specs.private.Numbering.{AreNumbers, grid_at};

use clock_terms::Grid;
use std::alloc::{AllocError, Global};

/// The number of a class, where it has one.
pub(crate) fn number_of_class(numbers: &[Option<u32>], class: u32) -> Option<u32>
    ensures { result ≡ slice_index_or numbers.now class None }
{
    match numbers.get(class as usize) {
        Some(number) => *number,
        None => None,
    }
}

/// The number of each class among the clocked ones; none of an unclocked one.
pub(crate) fn numbers_of(alloc: Global, clocked: &[bool]) -> Result<Vec<Option<u32>>, AllocError>
    ensures { IfOk result (λ numbers. AreNumbers clocked.now numbers.items) }
{
    let mut numbers = Vec::with_capacity(alloc, clocked.len())?;
    let mut next: u32 = 0;
    for is_clocked in clocked {
        if *is_clocked {
            numbers.push(Some(next))?;
            next = next.checked_add(1).ok_or(AllocError)?;
        } else {
            numbers.push(None)?;
        }
    }
    Ok(numbers)
}

/// The grid of a class, where it is clocked.
pub(crate) fn grid_of_class(numbers: &[Option<u32>], grids: &[Grid], class: u32) -> Option<Grid>
    ensures grid { (clocked : List Bool) → AreNumbers clocked numbers.now → result ≡ grid_at clocked grids.now class }
    ensures within { IfSome result (Contains grids.now) }
{
    match number_of_class(numbers, class) {
        Some(number) => grid_at_number(grids, number),
        None => None,
    }
}

fn grid_at_number(grids: &[Grid], number: u32) -> Option<Grid>
    ensures { result ≡ slice_get grids.now number }
{
    match grids.get(number as usize) {
        Some(grid) => Some(*grid),
        None => None,
    }
}
