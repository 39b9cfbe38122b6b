ghost use Rattle.std.specs.Prelude.{◌≡◌, ◌≤◌, ◌++◌, ◌<◌, ◌^◌, List, length, take, IfOk, IfSome, All};
ghost use Rattle.sync_values.specs.declared.value.Value.{Value};
ghost use Rattle.flat_model.specs.Tables.{IsTime, IsInput};
ghost use Rattle.input_table.specs.private.Quick.{CellsTaken, RowTaken, LineEnds};

use crate::front::{behind, instant_front, value_front};
use crate::header::Form;
use crate::plain::{is_line_end, without_line_ends};
use crate::rows::last_of;
use flat_model::FlatName;
use rational_time::{Ratio, compare};
use std::alloc::AllocError;
use std::cmp::Ordering;
use sync_values::{List, Value};

/// What follows the end of a line in front of a text.
fn behind_line(text: &[u8]) -> Option<&[u8]>
    ensures { IfSome result (λ rest. LineEnds text.now rest.now) }
{
    let Some((mark, rest)) = text.split_first() else {
        return None;
    };
    if is_line_end(*mark) { Some(rest) } else { None }
}

/// Takes the cells of a row in front of a text, each behind its comma, and the end of the line, and gives what
/// follows it. None comes where this is not all that stands there, or not in the plainest way.
fn take_cells<'a>(
    names: &[FlatName],
    columns: &[u32],
    text: &'a [u8],
    cells: &mut List<Value>,
) -> Result<Option<&'a [u8]>, AllocError>
    requires inputs { All (IsInput names.now) columns.now }
    ensures { IfOk result (λ taken. CellsTaken names.now columns.now text.now cells.old taken cells.new) }
{
    let mut rest = text;
    for column in 0..columns.len() {
        let Some(field) = behind(b',', rest) else {
            return Ok(None);
        };
        let name = &names[columns[column] as usize];
        let Some((value, others)) = value_front(name.kind, field) else {
            return Ok(None);
        };
        cells.push(value)?;
        rest = others;
    }
    Ok(behind_line(rest))
}

/// Drops the cells behind so many.
fn keep(cells: &mut List<Value>, count: usize)
    requires { count ≤ length cells.old }
    ensures { cells.new ≡ take count cells.old }
{
    while cells.len() > count {
        let _value = cells.pop();
    }
}

/// Reads the row of the next record of a text without quotes in one pass, and gives what follows it. None comes, with
/// nothing read, where the record is no row behind the last one, or not written in the plainest way.
pub(crate) fn take_row<'a>(
    form: Form,
    names: &[FlatName],
    columns: &[u32],
    text: &'a [u8],
    times: &mut List<Ratio>,
    cells: &mut List<Value>,
) -> Result<Option<&'a [u8]>, AllocError>
    requires inputs { All (IsInput names.now) columns.now }
    requires range { All IsTime times.old }
    ensures { IfOk result (λ taken. RowTaken form names.now columns.now text.now times.old cells.old taken times.new cells.new) }
{
    let Some(before) = last_of(times) else {
        return Ok(None);
    };
    let Some((time, row)) = instant_front(form, before, without_line_ends(text)) else {
        return Ok(None);
    };
    let Ordering::Less = compare(before, time) else {
        return Ok(None);
    };
    let count = cells.len();
    match take_cells(names, columns, row, cells)? {
        None => {
            keep(cells, count);
            Ok(None)
        }
        Some(rest) => {
            times.push(time)?;
            Ok(Some(rest))
        }
    }
}
