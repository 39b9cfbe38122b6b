ghost use Rattle.std.specs.Prelude.{◌≡◌, ◌≤◌, length, vec_capacity, All, IfOk};
ghost use Rattle.flat_model.specs.Models.{IsName, size_limit};
ghost use Rattle.flat_model.specs.Trace.{is_column, columns_of, header_text, row_text};
ghost use Rattle.trace_print.specs.Room.{Room, row_len};

use crate::piece::{add, add_cell, add_instant};
use flat_model::{FlatModel, FlatName, NameKind};
use rational_time::Ratio;
use std::alloc::Global;
use std::marker::Model;
use sync_values::{NoMemory, Value};

/// The bytes of an instant at most.
const INSTANT_LEN: usize = 41;
/// The bytes of a cell at most, with its comma.
const CELL_LEN: usize = 21;

/// A line of the trace, the header or a row, in room that `reserve` took. Contracts see of it the number of its
/// columns and the bytes for which it has room, which no call changes.
#[derive(Drop)]
pub struct Line {
    text: Vec<u8>,
    columns: usize,
}

impl Model for Line {
    ghost Value = { Room };

    ghost view = { λ line. record { columns = line.columns; bytes = vec_capacity line.text } };

    ghost invariant = { λ line. row_len line.columns ≤ vec_capacity line.text };
}

/// Whether a name is a column: all but Clocks are.
fn is_column(kind: NameKind) -> bool
    ensures { result ≡ is_column kind }
{
    match kind {
        NameKind::Clock => false,
        _ => true,
    }
}

/// The number of columns among names.
fn count_columns(names: &[FlatName]) -> usize
    ensures count { result ≡ length (columns_of names.now) }
    ensures few { result ≤ length names.now }
{
    let mut columns = 0;
    for name in names {
        if is_column(name.kind) {
            columns += 1;
        }
    }
    columns
}

/// The bytes of the header.
fn header_len(names: &[FlatName]) -> usize
    requires few { length names.now ≤ size_limit }
    requires names { All IsName names.now }
    ensures { result ≡ length (header_text names.now) }
{
    let mut len = 5;
    for name in names {
        if is_column(name.kind) {
            len += name.text.len() + 1;
        }
    }
    len
}

/// Takes room for the header of a model and for each row of its columns. The conditions hold of each flat model.
///
/// # Errors
///
/// Where memory does not suffice.
pub fn reserve(alloc: Global, flat: &FlatModel) -> Result<Line, NoMemory>
    requires few { length flat.now.names ≤ size_limit }
    requires names { All IsName flat.now.names }
    ensures columns { IfOk result (λ line. line.columns ≡ length (columns_of flat.now.names)) }
    ensures header { IfOk result (λ line. length (header_text flat.now.names) ≤ line.bytes) }
{
    let names = flat.names.as_slice();
    let columns = count_columns(names);
    let row = INSTANT_LEN + CELL_LEN * columns + 1;
    let text = Vec::with_capacity(alloc, header_len(names).max(row))?;
    Ok(Line { text, columns })
}

/// Writes the header in place of what the line has.
fn write_header(line: &mut Vec<u8>, names: &[FlatName])
    requires { length (header_text names.now) ≤ vec_capacity line.old }
    ensures text { line.new.items ≡ header_text names.now }
    ensures room { vec_capacity line.new ≡ vec_capacity line.old }
{
    line.clear();
    add(line, b"time");
    for name in names {
        if !is_column(name.kind) {
            continue;
        }
        add(line, b",");
        add(line, name.text.as_bytes());
    }
    add(line, b"\n");
}

/// Writes the row of an instant in place of what the line has.
fn write_row(line: &mut Vec<u8>, at: Ratio, values: &[Option<Value>])
    requires { row_len (length values.now) ≤ vec_capacity line.old }
    ensures text { line.new.items ≡ row_text at values.now }
    ensures room { vec_capacity line.new ≡ vec_capacity line.old }
{
    line.clear();
    add_instant(line, at);
    for value in values {
        add(line, b",");
        add_cell(line, *value);
    }
    add(line, b"\n");
}

impl Line {
    ghost use Rattle.trace_print.specs.Keeps.{KeepsRoom};
    ghost use Rattle.std.specs.Prelude.{◌≡◌, ◌≤◌, length};
    ghost use Rattle.std.specs.Borrow.{sem};
    ghost use Rattle.flat_model.specs.Trace.{header_text, row_text};

    /// The header of a model: `time` and the names of its columns. The condition is that it fits the room of the line,
    /// as it does after `reserve` for this model.
    pub fn header(&mut self, flat: &FlatModel) -> &[u8]
        requires { length (header_text flat.now.names) ≤ self.old.bytes }
        ensures* keeps { sem 𝓛 (KeepsRoom self.entry) }
        ensures text { result.now ≡ header_text flat.now.names }
    {
        write_header(&mut self.text, flat.names.as_slice());
        self.text.as_slice()
    }

    /// The row of an instant: its time in seconds, and for each column the value, or nothing where it has none.
    /// The condition is that there are as many values as columns.
    pub fn row(&mut self, at: Ratio, values: &[Option<Value>]) -> &[u8]
        requires { length values.now ≡ self.old.columns }
        ensures* keeps { sem 𝓛 (KeepsRoom self.entry) }
        ensures text { result.now ≡ row_text at values.now }
    {
        write_row(&mut self.text, at, values);
        self.text.as_slice()
    }
}
