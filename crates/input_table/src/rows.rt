ghost use Rattle.std.specs.Prelude.{◌≡◌, ℕ, List, ◌<◌, ◌^◌, ◌+◌, length, IfSome, All};
ghost use Rattle.csv.specs.Records.{fields_of};
ghost use Rattle.flat_model.specs.Tables.{IsTime, IsInput};
ghost use Rattle.input_table.specs.Rows.{Row};
ghost use Rattle.input_table.specs.private.Reading.{Hold, TimeAnswers, CellsAnswer, RowAnswers, above_next, last_time};

use crate::ends::{TableCode, TableEnd};
use crate::fields::{cell_of, instant_of, text_in};
use crate::header::Form;
use csv::ByteRecord;
use flat_model::{FlatName, Place};
use rational_time::{Ratio, compare};
use std::cmp::Ordering;
use sync_values::{List, Value};

/// The instant of a row behind another, or the rule that its field breaks.
fn time_behind(form: Form, before: Option<Ratio>, text: &[u8]) -> Result<Ratio, TableCode>
    requires { IfSome before IsTime }
    ensures { TimeAnswers form before text.now result }
{
    let Some(time) = instant_of(form, before, text) else {
        return Err(TableCode::I4);
    };
    match before {
        None => {
            if time.num() == 0 {
                Ok(time)
            } else {
                Err(TableCode::I5)
            }
        }
        Some(last) => match compare(last, time) {
            Ordering::Less => Ok(time),
            _ => Err(TableCode::I6),
        },
    }
}

/// The value above the next cell.
fn value_above(cells: &List<Value>, width: usize) -> Option<Value>
    ensures { result ≡ above_next width cells.now }
{
    if cells.len() < width {
        None
    } else {
        cells.get(cells.len() - width).copied()
    }
}

/// The instant of the row that was read last.
pub(crate) fn last_of(times: &List<Ratio>) -> Option<Ratio>
    ensures is { result ≡ last_time times.now }
    ensures range { All IsTime times.now → IfSome result IsTime }
{
    times.as_slice().last().copied()
}

/// Reads the cells of a row behind those of the rows before it.
fn read_cells(
    form: Form,
    names: &[FlatName],
    columns: &[u32],
    record_: &ByteRecord,
    number: u32,
    cells: &mut List<Value>,
) -> Result<(), TableEnd>
    requires inputs { All (IsInput names.now) columns.now }
    requires few { length columns.now < 2 ^ 31 }
    ensures { CellsAnswer form names.now columns.now (fields_of record_.now) number cells.old result cells.new }
{
    for column in 0..columns.len() {
        let name = &names[columns[column] as usize];
        let above = value_above(cells, columns.len());
        let Some(value) = cell_of(form, above, name.kind, text_in(record_, column + 1)) else {
            return Err(fault(TableCode::I4, number, column as u32 + 2));
        };
        cells.push(value)?;
    }
    Ok(())
}

/// A broken rule at a cell of the table.
pub(crate) fn fault(code: TableCode, row: u32, column: u32) -> TableEnd
    ensures { result ≡ TableEnd.Fault code (Place.Cell row column) }
{
    TableEnd::Fault {
        code,
        place: Place::Cell { row, column },
    }
}

/// Reads the row of a record, of this number from 1 on, behind those that were read.
pub(crate) fn read_row(
    form: Form,
    names: &[FlatName],
    columns: &[u32],
    record_: &ByteRecord,
    number: u32,
    times: &mut List<Ratio>,
    cells: &mut List<Value>,
) -> Result<(), TableEnd>
    requires inputs { All (IsInput names.now) columns.now }
    requires few { length columns.now < 2 ^ 31 }
    requires range { All IsTime times.old }
    ensures { (rows : List Row) → Hold (length columns.now) rows times.old cells.old →
        RowAnswers form names.now columns.now rows (fields_of record_.now) number result times.new cells.new }
{
    let width = columns.len() + 1;
    if record_.len() != width {
        return Err(fault(TableCode::I7, number, record_.len().min(width) as u32 + 1));
    }
    match time_behind(form, last_of(times), text_in(record_, 0)) {
        Err(code) => Err(fault(code, number, 1)),
        Ok(time) => match read_cells(form, names, columns, record_, number, cells) {
            Err(end) => Err(end),
            Ok(()) => {
                times.push(time)?;
                Ok(())
            }
        },
    }
}
