//! The names that are columns, and the row of their values.
ghost use Rattle.std.specs.Prelude.{◌≡◌, ◌≤◌, IfOk, length, map};
ghost use Rattle.flat_model.specs.Values.{value_in};
ghost use Rattle.flat_model.specs.Models.{size_limit};
ghost use Rattle.flat_model.specs.Trace.{columns_of, is_column};

use flat_model::{FlatName, NameKind};
use std::alloc::{AllocError, Global};
use sync_values::{List, Value};

/// Whether a name is a column: all but Clocks are.
fn is_column(kind: NameKind) -> bool
    ensures { result ≡ is_column kind }
{
    match kind {
        NameKind::Clock => false,
        _ => true,
    }
}

/// The numbers of the names that are columns, in order. Memory that is refused is the only error.
///
/// Source: this project's own.
pub fn list_columns(alloc: Global, names: &[FlatName]) -> Result<List<u32>, AllocError>
    requires few { length names.now ≤ size_limit }
    ensures { IfOk result (λ columns. columns ≡ columns_of names.now) }
{
    let mut columns = List::new(alloc);
    for number in 0..names.len() {
        if is_column(names[number].kind) {
            columns.push(number as u32)?;
        }
    }
    Ok(columns)
}

/// The value of a name, where it has one.
fn value_at(now: &[Option<Value>], name: u32) -> Option<Value>
    ensures { result ≡ value_in now.now name }
{
    match now.get(name as usize) {
        Some(value) => *value,
        None => None,
    }
}

/// Puts the values of the columns into a row, in order. It takes no memory.
///
/// Source: this project's own.
pub fn fill_row(columns: &[u32], now: &[Option<Value>], row: &mut [Option<Value>])
    requires { length row.old ≡ length columns.now }
    ensures { row.new ≡ map (value_in now.now) columns.now }
{
    for place in 0..columns.len() {
        row[place] = value_at(now, columns[place]);
    }
}
