ghost use Rattle.std.specs.Prelude.{◌≡◌, ◌<◌, ◌^◌, ℕ, List, length, true, false, slice_index_or, IfOk, OnOk, MatchOption, Some, if◌then◌else◌};
ghost use Rattle.std.specs.Str.{bytes_eq};
ghost use Rattle.flat_model.specs.declared.model.FlatName.{FlatName};
ghost use Rattle.flat_model.specs.Models.{AreNames};
ghost use Rattle.csv.specs.Records.{fields_of};
ghost use Rattle.input_table.specs.Fields.{text_in};
ghost use Rattle.input_table.specs.Headers.{BeginsAs};
ghost use Rattle.input_table.specs.private.Finding.{FindsInputs, FirstAre, ColumnsAre, AreFirst, AreNoted, AreWhole, IsFirstMissing, IsMissingFault, number_of};
ghost use Rattle.input_table.specs.declared.header.Form.{Form};

use crate::ends::{TableCode, TableEnd};
use crate::fields::text_in;
use csv::ByteRecord;
use flat_model::{FlatName, Place};
use indexmap::IndexMap;
use std::alloc::{AllocError, Global};
use sync_values::{List, Text};

/// The two forms of a table. In the short form a time may be added to the one before, and an empty cell keeps the
/// value above it.
#[derive(Clone, Copy)]
pub(crate) enum Form {
    Plain,
    Short,
}

/// The form that a header names, if it is a header.
pub(crate) fn form_of(header: &ByteRecord) -> Option<Form>
    ensures { MatchOption result
        ((form : Form) → BeginsAs form (fields_of header.now) → ⊥)
        (λ form. BeginsAs form (fields_of header.now)) }
{
    if header.is_empty() {
        return None;
    }
    let word = text_in(header, 0);
    if word == b"time".as_slice() {
        Some(Form::Plain)
    } else if word == b"time2".as_slice() {
        Some(Form::Short)
    } else {
        None
    }
}

/// Notes a number for a text.
fn note<'a>(
    found: &mut IndexMap<&'a [u8], u32>,
    text: &'a [u8],
    number: u32,
) -> Result<(), AllocError>
    ensures { OnOk result ((other : List ℕ) → number_of other found.new.entries ≡ (if bytes_eq other text.now then Some number else number_of other found.old.entries)) }
{
    found.insert(text, number)?;
    Ok(())
}

/// The inputs by their texts.
fn inputs<'a>(alloc: Global, names: &'a [FlatName]) -> Result<IndexMap<&'a [u8], u32>, AllocError>
    requires { AreNames names.now }
    ensures { IfOk result (λ map. FindsInputs names.now map.entries) }
{
    let mut found = IndexMap::new(alloc);
    for at in 0..names.len() {
        let name = &names[at];
        if name.input {
            note(&mut found, name.text.as_bytes(), at as u32)?;
        }
    }
    Ok(found)
}

/// The number of the input with a text.
fn input_called(inputs: &IndexMap<&[u8], u32>, text: &[u8]) -> Option<u32>
    ensures { result ≡ number_of text.now inputs.now.entries }
{
    inputs.get(text).copied()
}

/// The inputs of the columns, each noted, or the first column that is wrong.
fn columns_seen(
    alloc: Global,
    names: &[FlatName],
    inputs: &IndexMap<&[u8], u32>,
    header: &ByteRecord,
    seen: &mut [bool],
) -> Result<List<u32>, TableEnd>
    requires names { AreNames names.now }
    requires found { FindsInputs names.now inputs.now.entries }
    requires some { 0 < length (fields_of header.now) }
    requires short { length (fields_of header.now) < 2 ^ 32 }
    requires none { (x : ℕ) → slice_index_or seen.old x false ≡ true → ⊥ }
    requires long { length seen.old ≡ length names.now }
    ensures columns { FirstAre names.now (fields_of header.now) result }
    ensures noted { IfOk result (λ columns. AreNoted columns seen.new) }
{
    let mut columns = List::new(alloc);
    for place in 1..header.len() {
        let wrong = TableEnd::Fault {
            code: TableCode::I3,
            place: Place::Cell {
                row: 0,
                column: place as u32 + 1,
            },
        };
        let Some(x) = input_called(inputs, text_in(header, place)) else {
            return Err(wrong);
        };
        if seen[x as usize] {
            return Err(wrong);
        }
        seen[x as usize] = true;
        columns.push(x)?;
    }
    Ok(columns)
}

/// The first input that is not noted.
fn first_missing<'a>(names: &'a [FlatName], seen: &[bool]) -> Option<&'a Text>
    requires { length seen.now ≡ length names.now }
    ensures { (header : List (List ℕ)) (columns : List ℕ) → AreNames names.now → AreFirst names.now header (length header) columns → AreNoted columns seen.now →
        MatchOption result (AreWhole names.now header columns) (λ text. IsFirstMissing names.now header text.now) }
{
    for at in 0..names.len() {
        let name = &names[at];
        if name.input && !seen[at] {
            return Some(&name.text);
        }
    }
    None
}

/// The inputs of the columns, or the first column that is wrong, or else the first input without a column.
pub(crate) fn columns_of(
    alloc: Global,
    names: &[FlatName],
    header: &ByteRecord,
) -> Result<List<u32>, TableEnd>
    requires names { AreNames names.now }
    requires some { 0 < length (fields_of header.now) }
    requires short { length (fields_of header.now) < 2 ^ 32 }
    ensures { ColumnsAre names.now (fields_of header.now) result }
{
    let inputs = inputs(alloc, names)?;
    let mut seen = vec![in alloc; false; names.len()]?;
    let columns = columns_seen(alloc, names, &inputs, header, &mut seen)?;
    match first_missing(names, &seen) {
        None => Ok(columns),
        Some(text) => Err(missing(alloc, text)),
    }
}

/// The fault of an input without a column.
pub(crate) fn missing(alloc: Global, text: &Text) -> TableEnd
    ensures { IsMissingFault text.now result }
{
    match Text::from_bytes(alloc, text.as_bytes()) {
        Ok(text) => TableEnd::Fault {
            code: TableCode::I2,
            place: Place::Name(text),
        },
        Err(_) => TableEnd::NoMemory,
    }
}
