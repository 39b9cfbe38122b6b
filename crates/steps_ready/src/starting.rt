//! What is kept of names before the first moment.
ghost use Rattle.std.specs.Prelude.{◌≡◌, ℕ, ◌<◌, length, map, slice_get, None, Some, IfOk};
ghost use Rattle.flat_model.specs.Values.{value_in};
ghost use Rattle.moment_steps.specs.Settled.{AlwaysTicks};
ghost use Rattle.steps_ready.specs.Starting.{start_of};

use flat_model::{Elapsed, FlatName, Left};
use rational_time::make;
use std::alloc::{AllocError, Global};
use sync_values::{List, Value};
use tree_step::{Cell, ClockNow, Standing};

/// The numbers from 0 on.
/// Memory that is refused is the only error.
///
/// Source: this project's own.
pub fn numbers(alloc: Global, count: u32) -> Result<List<u32>, AllocError>
    ensures size { IfOk result (λ numbers. length numbers ≡ count) }
    ensures each { IfOk result (λ numbers. (x : ℕ) → x < count → slice_get numbers x ≡ Some x) }
{
    let mut numbers = List::with_capacity(alloc, count as usize)?;
    for name in 0..count {
        numbers.push(name)?;
    }
    Ok(numbers)
}

/// Room for the cell of each name.
/// Memory that is refused is the only error.
///
/// Source: this project's own.
pub fn room(alloc: Global, count: usize) -> Result<Vec<Cell>, AllocError>
    ensures { IfOk result (λ cells. length cells.items ≡ count) }
{
    let cell = Cell {
        name: 0,
        kept: Value::Bool(false),
        standing: Standing::Rests,
        now: None,
    };
    Vec::from_elem(alloc, cell, count)
}

/// What is shown of no clock.
/// Memory that is refused is the only error.
///
/// Source: this project's own.
pub fn always(alloc: Global) -> Result<List<ClockNow>, AllocError>
    ensures { IfOk result AlwaysTicks }
{
    let mut always = List::with_capacity(alloc, 1)?;
    always.push(ClockNow {
        ticks: true,
        first: true,
        interval: Elapsed::Period(make(0, 1)),
    })?;
    Ok(always)
}

/// The start of each name.
fn starts(alloc: Global, names: &[FlatName]) -> Result<List<Value>, AllocError>
    ensures { IfOk result (λ starts. starts ≡ map start_of names.now) }
{
    let mut starts = List::with_capacity(alloc, names.len())?;
    for name in names {
        starts.push(name.start)?;
    }
    Ok(starts)
}

/// The values before the first moment: none at a moment before, and the starts as the last ones.
/// Memory that is refused is the only error.
///
/// Source: this project's own.
pub fn left_at_first(alloc: Global, names: &[FlatName]) -> Result<Left, AllocError>
    ensures now { IfOk result (λ left. length left.now ≡ length names.now) }
    ensures none { IfOk result (λ left. (y : ℕ) → value_in left.now y ≡ None) }
    ensures last { IfOk result (λ left. left.last ≡ map start_of names.now) }
{
    let last = starts(alloc, names)?;
    let now = Vec::from_elem(alloc, None, names.len())?;
    Ok(Left {
        now: List::from_vec(now),
        last,
    })
}
