ghost use Rattle.std.specs.Prelude.{◌≡◌, ◌≢◌, ◌≤◌, true, length};
ghost use Rattle.flat_model.specs.Assignment.{IsOfKind};
ghost use Rattle.flat_model.specs.Models.{IsModel, IsName};
ghost use Rattle.flat_model.specs.declared.model.NameKind.TheVariants as kind;

use flat_model::{FlatModel, FlatName, NameKind, Place, Table};
use input_table::{TableCode, TableEnd, no_table, read_table};
use std::alloc::Global;
use std::process::Abort;
use sync_values::{List, Text, Value};

/// A name that starts at 0 or false.
pub(crate) fn name(
    rt: &impl Abort,
    alloc: Global,
    text: &[u8],
    boolean: bool,
    input: bool,
) -> FlatName
    requires { length text.now ≤ 100 }
    ensures name { IsName result }
    ensures text { result.text ≡ text.now }
{
    let text = Text::from_bytes(alloc, text).expect(rt, "memory");
    if boolean {
        FlatName {
            text,
            kind: NameKind::Boolean,
            input,
            start: Value::Bool(false),
        }
    } else {
        FlatName {
            text,
            kind: NameKind::Integer,
            input,
            start: Value::Int(0),
        }
    }
}

/// The model of two names, without equations.
pub(crate) fn model(rt: &impl Abort, alloc: Global, first: FlatName, second: FlatName) -> FlatModel
    requires first { IsName first }
    requires second { IsName second }
    requires apart { first.text ≢ second.text }
    ensures { IsModel result }
{
    let mut names = List::new(alloc);
    names.push(first).expect(rt, "memory");
    names.push(second).expect(rt, "memory");
    FlatModel {
        names,
        equations: List::new(alloc),
        clauses: List::new(alloc),
    }
}

/// An input `u` and a variable `y`, both Integer.
pub(crate) fn one_input(rt: &impl Abort, alloc: Global) -> FlatModel
    ensures { IsModel result }
{
    let input = name(rt, alloc, b"u", false, true);
    let variable = name(rt, alloc, b"y", false, false);
    model(rt, alloc, input, variable)
}

/// The inputs `u`, an Integer, and `b`, a Boolean.
fn two_inputs(rt: &impl Abort, alloc: Global) -> FlatModel
    ensures { IsModel result }
{
    let number = name(rt, alloc, b"u", false, true);
    let truth = name(rt, alloc, b"b", true, true);
    model(rt, alloc, number, truth)
}

/// The number of a rule.
fn number_of(code: TableCode) -> i64 {
    match code {
        TableCode::I1 => 1,
        TableCode::I2 => 2,
        TableCode::I3 => 3,
        TableCode::I4 => 4,
        TableCode::I5 => 5,
        TableCode::I6 => 6,
        TableCode::I7 => 7,
    }
}

fn add(rt: &impl Abort, numbers: &mut Vec<i64>, number: i64) {
    numbers.push(number).expect(rt, "memory");
}

/// The number of a cell, where true is 1 and false is 0.
fn cell_number(cell: Option<&Value>) -> i64 {
    match cell {
        Some(Value::Int(number)) => *number,
        Some(Value::Bool(truth)) => i64::from(*truth),
        None => -1,
    }
}

fn add_part(rt: &impl Abort, numbers: &mut Vec<i64>, part: u64) {
    add(rt, numbers, i64::try_from(part).expect(rt, "small parts"));
}

/// Adds the rows of a table: of each the parts of its time, and its cells.
fn add_rows(rt: &impl Abort, numbers: &mut Vec<i64>, table: &Table) {
    let width = table.columns.len();
    let mut cells = table.cells.as_slice().iter();
    for time in table.times.as_slice() {
        add_part(rt, numbers, time.num());
        add_part(rt, numbers, time.den());
        for _ in 0..width {
            add(rt, numbers, cell_number(cells.next()));
        }
    }
}

fn add_place(rt: &impl Abort, numbers: &mut Vec<i64>, place: &Place) {
    match place {
        Place::Cell { row, column } => {
            add(rt, numbers, i64::from(*row));
            add(rt, numbers, i64::from(*column));
        }
        Place::Name(name) => {
            for byte in name.as_bytes() {
                add(rt, numbers, i64::from(*byte));
            }
        }
        _ => add(rt, numbers, -1),
    }
}

/// An answer as numbers. A table is 0 and its rows: for each the numerator and the denominator of its time, and its
/// cells, where true is 1 and false is 0. A broken rule is its number with row and column, or with the bytes of a name.
fn told(rt: &impl Abort, alloc: Global, answer: &Result<Table, TableEnd>) -> Vec<i64> {
    let mut numbers = Vec::new(alloc);
    match answer {
        Ok(table) => {
            add(rt, &mut numbers, 0);
            add_rows(rt, &mut numbers, table);
        }
        Err(TableEnd::NoMemory) => add(rt, &mut numbers, 9),
        Err(TableEnd::Fault { code, place }) => {
            add(rt, &mut numbers, number_of(*code));
            add_place(rt, &mut numbers, place);
        }
    }
    numbers
}

/// The answer to the bytes of a file, as numbers.
pub(crate) fn read(rt: &impl Abort, alloc: Global, flat: &FlatModel, bytes: &[u8]) -> Vec<i64>
    requires { IsModel flat.now }
{
    assert!(rt; bytes.len() <= 16_777_216, "a table file is short");
    told(rt, alloc, &read_table(alloc, flat, bytes))
}

/// Asserts the answer to the bytes of a file.
pub(crate) fn assert_read(
    rt: &impl Abort,
    alloc: Global,
    flat: &FlatModel,
    bytes: &[u8],
    wanted: &[i64],
)
    requires { IsModel flat.now }
{
    let answer = read(rt, alloc, flat, bytes);
    assert_eq!(rt; answer.as_slice(), wanted, "{bytes:?}");
}

/// The letters of the inputs.
const U: i64 = b'u' as i64;

const B: i64 = b'b' as i64;

/// Files, and what is told of their tables.
static ONE_INPUT: [(&'static [u8], &'static [i64]); 34] = [
    (b"time,u\n0,5\n1,7\n", &[0, 0, 1, 5, 1, 1, 7]),
    // No table file is empty, and no word but these begins one.
    (b"", &[1, 0, 1]),
    (b"\n\n", &[1, 0, 1]),
    (b"u,time\n", &[1, 0, 1]),
    (b"time3,u\n", &[1, 0, 1]),
    (b"time\n0\n", &[2, U]),
    (b"time,u,w\n0,1,2\n", &[3, 0, 3]),
    (b"time,y\n", &[3, 0, 2]),
    (b"time,u\n0,x\n", &[4, 1, 2]),
    (b"time,u\n1,5\n", &[5, 1, 1]),
    (b"time,u\n", &[5, 1, 1]),
    (b"time,u\n0,5\n1,6\n1,7\n", &[6, 3, 1]),
    (b"time,u\n0\n", &[7, 1, 2]),
    (b"time,u\n0,5,6\n", &[7, 1, 3]),
    // The length of a record comes before its fields, and a row before the next.
    (b"time,u\n0\n0,x\n", &[7, 1, 2]),
    (b"time,u\n0,x\n1\n", &[4, 1, 2]),
    // Quotes, blanks, blank lines, CR, a byte order mark.
    (b"\"time\" , u \r\n\r\n\"0\",\" 5 \"\r\n", &[0, 0, 1, 5]),
    (b"\xef\xbb\xbftime,u\n0,5", &[0, 0, 1, 5]),
    (b"time,u\n0, \"5\"\n", &[4, 1, 2]),
    (b"time,u\n \n", &[7, 1, 2]),
    // Bytes that are no UTF-8 are no value and no input.
    (b"time,u\n0,\xff\n", &[4, 1, 2]),
    (b"time,\xff\n", &[3, 0, 2]),
    // Integers of 64 bits, and digits of any number.
    (b"time,u\n0,-9223372036854775808\n", &[0, 0, 1, i64::MIN]),
    (b"time,u\n0,+9223372036854775807\n", &[0, 0, 1, i64::MAX]),
    (b"time,u\n0,9223372036854775808\n", &[4, 1, 2]),
    (b"time,u\n0,0000000000000000000000007\n", &[0, 0, 1, 7]),
    (b"time,u\n0,+-7\n", &[4, 1, 2]),
    // Times: reduced, 18 digits, below 2^20 with a denominator below 2^32.
    (
        b"time,u\n0/6,5\n2/4,6\n1048575.5,7\n",
        &[0, 0, 1, 5, 1, 2, 6, 2097151, 2, 7],
    ),
    (b"time,u\n0,5\n1048576,6\n", &[4, 2, 1]),
    (b"time,u\n0,5\n1/4294967296,6\n", &[4, 2, 1]),
    (
        b"time,u\n0,5\n1/4294967295,6\n",
        &[0, 0, 1, 5, 1, 4294967295, 6],
    ),
    (b"time,u\n0000000000000000000,5\n", &[4, 1, 1]),
    (b"time,u\n+0,5\n", &[4, 1, 1]),
    (b"time,u\n0,\n", &[4, 1, 2]),
];

/// The tables of the model of one input: form 1, and what each rule refuses.
#[test]
fn one_input_has_its_tables(rt: HostRuntime) {
    let flat = one_input(&rt, rt.alloc());
    for row in &ONE_INPUT {
        assert_read(&rt, rt.alloc(), &flat, row.0, row.1);
    }
}

/// A file whose last field is this byte 99,999 times and then another byte.
fn long_field(rt: &impl Abort, alloc: Global, front: &[u8], many: u8, last: u8) -> Vec<u8> {
    let mut bytes = Vec::from_slice(alloc, front).expect(rt, "memory");
    for _ in 0..99_999 {
        bytes.push(many).expect(rt, "memory");
    }
    bytes.push(last).expect(rt, "memory");
    bytes.push(b'\n').expect(rt, "memory");
    bytes
}

/// What stands before a long field, its bytes and its last one, and what is told of the table.
static LONG: [(&'static [u8], u8, u8, &'static [i64]); 5] = [
    (b"time,u\n0,", b'0', b'7', &[0, 0, 1, 7]),
    (b"time,u\n0,", b' ', b'7', &[0, 0, 1, 7]),
    (b"time,u\n0,\"", b'0', b'"', &[0, 0, 1, 0]),
    (b"time,u\n0,", b'9', b'7', &[4, 1, 2]),
    (b"time,", b'u', b'u', &[3, 0, 2]),
];

/// A field has any number of bytes: here 100,000.
#[test]
fn a_field_may_be_long(rt: HostRuntime) {
    let flat = one_input(&rt, rt.alloc());
    for row in &LONG {
        let bytes = long_field(&rt, rt.alloc(), row.0, row.1, row.2);
        assert_read(&rt, rt.alloc(), &flat, bytes.as_slice(), row.3);
    }
}

static SHORT: [(&'static [u8], &'static [i64]); 11] = [
    (
        b"time2,u\n+0,5\n+1,7\n+1,\n",
        &[0, 0, 1, 5, 1, 1, 7, 2, 1, 7],
    ),
    (b"time2,u\n0,\n", &[4, 1, 2]),
    (b"time2,u\n0,5\n+0,6\n", &[6, 2, 1]),
    (b"time2,u\n0,5\n+1048576,6\n", &[4, 2, 1]),
    (b"time2,u\n0,5\n1048575,6\n+1,7\n", &[4, 3, 1]),
    (b"time2,u\n0,5\n1/65536,6\n+1/65537,7\n", &[4, 3, 1]),
    (b"time2,u\n+1/2,5\n", &[5, 1, 1]),
    (b"time2,u\n0,5\n+ 1,6\n", &[4, 2, 1]),
    (b"time2,u\n0,5\n++1,6\n", &[4, 2, 1]),
    (b"time2,u\n0,5\n,6\n", &[4, 2, 1]),
    (
        b"time2,u\n0,5\n+1/2, \n3/4,6\n+1/4,\n",
        &[0, 0, 1, 5, 1, 2, 5, 3, 4, 6, 1, 1, 6],
    ),
];

/// The second form of a table.
#[test]
fn short_tables_add_times_and_keep_values(rt: HostRuntime) {
    let flat = one_input(&rt, rt.alloc());
    for row in &SHORT {
        assert_read(&rt, rt.alloc(), &flat, row.0, row.1);
    }
}

static TWO_INPUTS: [(&'static [u8], &'static [i64]); 10] = [
    (
        b"time,u,b\n0,5,1\n1,-7,false\n",
        &[0, 0, 1, 5, 1, 1, 1, -7, 0],
    ),
    (
        b"time,b,u\n0,true,+5\n1,0,6\n",
        &[0, 0, 1, 1, 5, 1, 1, 0, 6],
    ),
    (
        b"time2,b,u\n0,true,5\n+1,,6\n+1,0,\n",
        &[0, 0, 1, 1, 5, 1, 1, 1, 6, 2, 1, 0, 6],
    ),
    (b"time,u\n0,5\n", &[2, B]),
    (b"time,u,u\n", &[3, 0, 3]),
    (b"time,u,c,u\n", &[3, 0, 3]),
    (b"time,u,b\n0,x,y\n", &[4, 1, 2]),
    (b"time,u,b\n0,5,2\n", &[4, 1, 3]),
    (b"time,u,b\n0,5,True\n", &[4, 1, 3]),
    (b"time,u,b\n0,5,1\n0,x,1\n", &[6, 2, 1]),
];

/// Two columns, in the order of the header.
#[test]
fn two_inputs_have_their_tables(rt: HostRuntime) {
    let flat = two_inputs(&rt, rt.alloc());
    for row in &TWO_INPUTS {
        assert_read(&rt, rt.alloc(), &flat, row.0, row.1);
    }
}

/// What is told of the answer without a table file.
fn told_of_none(rt: &impl Abort, alloc: Global, flat: &FlatModel) -> Vec<i64>
    requires { IsModel flat.now }
{
    told(rt, alloc, &no_table(alloc, flat))
}

/// The variables `x`, an Integer, and `y`, a Boolean.
fn two_variables(rt: &impl Abort, alloc: Global) -> FlatModel
    ensures { IsModel result }
{
    let first = name(rt, alloc, b"x", false, false);
    let second = name(rt, alloc, b"y", true, false);
    model(rt, alloc, first, second)
}

/// Without a table file there is one row at 0 where no name is an input.
#[test]
fn no_table_is_one_row(rt: HostRuntime) {
    let flat = two_variables(&rt, rt.alloc());
    let numbers = told_of_none(&rt, rt.alloc(), &flat);
    assert_eq!(rt; numbers.as_slice(), [0, 0, 1].as_slice());
}

/// Without a table file an input has no column.
#[test]
fn no_table_has_no_column(rt: HostRuntime) {
    let flat = two_inputs(&rt, rt.alloc());
    let numbers = told_of_none(&rt, rt.alloc(), &flat);
    assert_eq!(rt; numbers.as_slice(), [2, U].as_slice());
}
