ghost use Rattle.flat_model.specs.Tables.{IsTableOf};

use crate::models::{model, table};
use flat_model::{FlatModel, Moment, Table};
use moment_inputs::{fill_inputs, fill_inputs_near, fill_row, list_columns};
use rational_time::make;
use std::process::Abort;
use sync_values::Value;

/// An Integer input, a variable, a Clock, a Boolean input and another variable.
const LETTERS: &[u8] = b"uycbz";

/// The columns of the two inputs stand the other way round.
const BYTES: &[u8] = b"time,bbbb,u\n0,true,5\n1/2,false,6\n3,true,7\n";

/// An instant, the row whose values hold at it, and the two inputs.
type Case = ((u64, u64), usize, i64, bool);

const CASES: [Case; 9] = [
    ((0, 1), 0, 5, true),
    ((1, 4), 0, 5, true),
    ((499, 1000), 0, 5, true),
    ((1, 2), 1, 6, false),
    ((1, 1), 1, 6, false),
    ((2999, 1000), 1, 6, false),
    ((3, 1), 2, 7, true),
    ((3001, 1000), 2, 7, true),
    ((100, 1), 2, 7, true),
];

/// The values of all names.
type Values = [Option<Value>; 5];

/// What the names have: the inputs these values, and the others none.
fn wanted(number: i64, truth: bool) -> Values {
    [
        Some(Value::Int(number)),
        None,
        None,
        Some(Value::Bool(truth)),
        None,
    ]
}

/// The values of all names before a moment.
const BEFORE: Values = [
    Some(Value::Int(99)),
    Some(Value::Int(99)),
    Some(Value::Int(99)),
    Some(Value::Int(99)),
    Some(Value::Int(99)),
];

/// The values at a moment, searched by halves and from each row.
fn check(rt: &impl Abort, flat: &FlatModel, table: &Table, at: Moment, row: usize, wanted: &Values)
    requires { IsTableOf flat.now table.now }
{
    assert_eq!(rt; flat.names.len(), 5);
    let mut now = BEFORE;
    fill_inputs(table, at, &mut now);
    assert_eq!(rt; now.as_slice(), wanted.as_slice());
    for near in [0, 1, 2, 3, usize::MAX] {
        let mut now = BEFORE;
        let found = fill_inputs_near(table, at, near, &mut now);
        assert_eq!(rt; found, row, "row from {near}");
        assert_eq!(rt; now.as_slice(), wanted.as_slice(), "values from {near}");
    }
}

/// An input has the value of the last row not after an instant, and before all instants that of the first row.
#[test]
fn inputs_have_their_values(rt: HostRuntime) {
    let alloc = rt.alloc();
    let flat = model(&rt, alloc, LETTERS);
    let table = table(&rt, alloc, &flat, BYTES);
    check(&rt, &flat, &table, Moment::Initial, 0, &wanted(5, true));
    for case in CASES.iter() {
        let ((num, den), row, number, truth) = *case;
        assert!(&rt; den > 0, "an instant");
        let at = Moment::At(make(num, den));
        check(&rt, &flat, &table, at, row, &wanted(number, truth));
    }
}

/// A row has all names but Clocks.
#[test]
fn rows_have_their_columns(rt: HostRuntime) {
    let alloc = rt.alloc();
    let flat = model(&rt, alloc, LETTERS);
    assert!(&rt; flat.names.len() <= 65_536, "few names");
    let columns = list_columns(alloc, flat.names.as_slice()).expect(&rt, "memory");
    assert_eq!(&rt; columns.as_slice(), [0, 1, 3, 4].as_slice());
    let now = wanted(5, true);
    let mut row = [None, None, None, None];
    fill_row(columns.as_slice(), &now, &mut row);
    let values = [now[0], now[1], now[3], now[4]];
    assert_eq!(&rt; row.as_slice(), values.as_slice());
}
