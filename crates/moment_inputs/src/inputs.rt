//! The values of the inputs at a moment.
ghost use Rattle.std.specs.Prelude.{◌≡◌, ◌==◌, ◌+◌, ◌*◌, ◌<◌, ℕ, Some, None, length, position, replicate, slice_get, slice_set};
ghost use Rattle.flat_model.specs.Values.{value_in};
ghost use Rattle.flat_model.specs.Moments.{cell_of, row_of};
ghost use Rattle.moment_inputs.specs.Filling.{IsTableOfNames, HoldInputs};

use crate::search::{row_at, row_near};
use flat_model::{Moment, Table};
use sync_values::Value;

/// Takes the values of all names away.
fn clear(now: &mut [Option<Value>])
    ensures { now.new ≡ replicate (length now.old) None }
{
    now.fill(None);
}

/// Gives the input of a column its value in a row.
fn set_column(table: &Table, row: usize, column: usize, now: &mut [Option<Value>])
    requires fits { IsTableOfNames (length now.old) table.now }
    requires row { row < length table.now.times }
    requires column { column < length table.now.columns }
    ensures { (x : ℕ) → slice_get table.now.columns column ≡ Some x → now.new ≡ slice_set now.old x (slice_get table.now.cells (row * length table.now.columns + column)) }
{
    let name = table.columns.as_slice()[column];
    let cell = table.cells.as_slice()[row * table.columns.len() + column];
    now[name as usize] = Some(cell);
}

/// Gives the inputs their values in a row of the table, and takes those of all other names away.
fn set_inputs(table: &Table, row: usize, now: &mut [Option<Value>])
    requires fits { IsTableOfNames (length now.old) table.now }
    requires row { row < length table.now.times }
    ensures long { length now.new ≡ length now.old }
    ensures values { (x : ℕ) → value_in now.new x ≡ cell_of table.now row (position (λ column. column == x) table.now.columns) }
{
    clear(now);
    for column in 0..table.columns.len() {
        set_column(table, row, column, now);
    }
}

/// Gives the inputs their values at a moment, and takes those of all other names away. The condition is that the table is
/// one of a model with as many names. The row is searched by halves. It takes no memory.
///
/// Source: this project's own; an input has the value of the last row not after an instant, and before all instants that
/// of the first row.
pub fn fill_inputs(table: &Table, at: Moment, now: &mut [Option<Value>])
    requires fits { IsTableOfNames (length now.old) table.now }
    ensures long { length now.new ≡ length now.old }
    ensures inputs { HoldInputs table.now at now.new }
{
    let row = row_at(table.times.as_slice(), at);
    set_inputs(table, row, now);
}

/// The same where the moment before had its values from the row `near`: this row and the one behind it are tried before the
/// others. The answer is the row of this moment.
///
/// Source: this project's own.
pub fn fill_inputs_near(table: &Table, at: Moment, near: usize, now: &mut [Option<Value>]) -> usize
    requires fits { IsTableOfNames (length now.old) table.now }
    ensures long { length now.new ≡ length now.old }
    ensures inputs { HoldInputs table.now at now.new }
    ensures row { result ≡ row_of table.now.times at }
{
    let row = row_near(table.times.as_slice(), at, near);
    set_inputs(table, row, now);
    row
}
