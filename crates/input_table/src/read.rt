ghost use Rattle.std.specs.Prelude.{◌≡◌, ◌≤◌, ◌<◌, ◌^◌, ◌∷◌, ℕ, List, [], length, All, IfOk, IfErr};
ghost use Rattle.flat_model.specs.Models.{IsModel};
ghost use Rattle.flat_model.specs.Tables.{IsInput, IsTime, IsTableOf};
ghost use Rattle.input_table.specs.Fields.{Record};
ghost use Rattle.input_table.specs.Tables.{Answers, AnswersNone, records_of, table_limit};
ghost use Rattle.input_table.specs.private.Standing.{IsStanding};
ghost use Rattle.input_table.specs.private.Reading.{BodyAnswers, WholeAnswers, IsReading, NextAnswers, ReadsPlain};

use crate::ends::{TableCode, TableEnd};
use crate::header::{Form, columns_of, form_of, missing};
use crate::quick::take_row;
use crate::records::Records;
use crate::rows::{fault, read_row};
use flat_model::{FlatModel, FlatName, Table};
use rational_time::{Ratio, make};
use std::alloc::Global;
use sync_values::{List, Value};

/// The table that the bytes of a file stand for. Its records are those of `csv` with commas and double quotes; spaces
/// and tabs at both ends of a field are dropped.
///
/// The first record is the header: `time` or `time2`, then each input once. Every other record is a row: its time, a
/// text that `rational_time` reads, below 2^20 seconds, and a value for each input. Below `time2` a time that begins
/// with `+` is added to that of the row before, and an empty field keeps the value above it.
///
/// # Errors
///
/// `Fault` comes exactly where the table breaks a rule, with the first one that it breaks: first those of the header,
/// then those of each record in order.
pub fn read_table(alloc: Global, flat: &FlatModel, bytes: &[u8]) -> Result<Table, TableEnd>
    requires model { IsModel flat.now }
    requires short { length bytes.now ≤ table_limit }
    ensures answers { Answers flat.now.names (records_of bytes.now) result }
    ensures table { IfOk result (IsTableOf flat.now) }
{
    let mut records = Records::new(alloc, bytes);
    match records.next() {
        Err(end) => return Err(end),
        Ok(false) => return Err(fault(TableCode::I1, 0, 1)),
        Ok(true) => {}
    }
    let Some(form) = form_of(records.row()) else {
        return Err(fault(TableCode::I1, 0, 1));
    };
    match columns_of(alloc, flat.names.as_slice(), records.row()) {
        Err(end) => Err(end),
        Ok(columns) => read_rows(
            alloc,
            form,
            flat.names.as_slice(),
            columns,
            &mut records,
            bytes,
        ),
    }
}

/// The table of the rows behind the header.
fn read_rows(
    alloc: Global,
    form: Form,
    names: &[FlatName],
    columns: List<u32>,
    records: &mut Records<'_>,
    bytes: &[u8],
) -> Result<Table, TableEnd>
    requires inputs { All (IsInput names.now) columns }
    requires few { length columns < 2 ^ 31 }
    requires short { length bytes.now ≤ table_limit }
    requires standing { (header : Record) × IsStanding bytes.now (header ∷ []) records.old }
    ensures { (header : Record) → IsStanding bytes.now (header ∷ []) records.old
        → BodyAnswers form names.now columns (records_of bytes.now) header result }
{
    let mut times = List::new(alloc);
    let mut cells = List::new(alloc);
    // There are no more records than bytes and one, the header among them.
    for number in 1..bytes.len() as u32 + 2 {
        match read_next(
            form,
            names,
            columns.as_slice(),
            records,
            number,
            &mut times,
            &mut cells,
        ) {
            Err(end) => return Err(end),
            Ok(false) => return whole(times, columns, cells),
            Ok(true) => {}
        }
    }
    unreachable!()
}

/// Reads the next row behind those that were read, and tells whether there is one.
fn read_next(
    form: Form,
    names: &[FlatName],
    columns: &[u32],
    records: &mut Records<'_>,
    number: u32,
    times: &mut List<Ratio>,
    cells: &mut List<Value>,
) -> Result<bool, TableEnd>
    requires inputs { All (IsInput names.now) columns.now }
    requires few { length columns.now < 2 ^ 31 }
    requires range { All IsTime times.old }
    ensures { (text : List ℕ) (header : Record) → IsReading form names.now columns.now text header number times.old cells.old records.old
        → NextAnswers form names.now columns.now text header number result times.new cells.new records.new }
{
    if read_plain(form, names, columns, records, times, cells)? {
        return Ok(true);
    }
    match records.next() {
        Err(end) => return Err(end),
        Ok(false) => return Ok(false),
        Ok(true) => {}
    }
    match read_row(form, names, columns, records.row(), number, times, cells) {
        Err(end) => Err(end),
        Ok(()) => Ok(true),
    }
}

/// Reads the next row in one pass, if it is written in the plainest way, and tells whether it did.
fn read_plain(
    form: Form,
    names: &[FlatName],
    columns: &[u32],
    records: &mut Records<'_>,
    times: &mut List<Ratio>,
    cells: &mut List<Value>,
) -> Result<bool, TableEnd>
    requires inputs { All (IsInput names.now) columns.now }
    requires range { All IsTime times.old }
    ensures read { IfOk result (λ is. ReadsPlain form names.now columns.now times.old cells.old records.old is times.new cells.new records.new) }
    ensures memory { IfErr result (λ end. end ≡ TableEnd.NoMemory) }
{
    let Some(text) = records.unquoted else {
        return Ok(false);
    };
    match take_row(form, names, columns, text, times, cells)? {
        None => Ok(false),
        Some(rest) => {
            records.unquoted = Some(rest);
            Ok(true)
        }
    }
}

/// The table of these lists.
fn whole(times: List<Ratio>, columns: List<u32>, cells: List<Value>) -> Result<Table, TableEnd>
    ensures { WholeAnswers times columns cells result }
{
    if times.is_empty() {
        return Err(fault(TableCode::I5, 1, 1));
    }
    Ok(Table {
        times,
        columns,
        cells,
    })
}

/// The table of a model without inputs: one row at 0, and no columns.
///
/// # Errors
///
/// `Fault` comes exactly where the model has an input: I2 at the first one.
pub fn no_table(alloc: Global, flat: &FlatModel) -> Result<Table, TableEnd>
    ensures answers { AnswersNone flat.now.names result }
    ensures table { IfOk result (IsTableOf flat.now) }
{
    let names = flat.names.as_slice();
    for at in 0..names.len() {
        let name = &names[at];
        if name.input {
            return Err(missing(alloc, &name.text));
        }
    }
    let mut times = List::new(alloc);
    times.push(make(0, 1))?;
    Ok(Table {
        times,
        columns: List::new(alloc),
        cells: List::new(alloc),
    })
}
