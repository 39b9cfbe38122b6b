ghost use Rattle.std.specs.Prelude.{◌≡◌, ◌≤◌, length};
ghost use Rattle.flat_model.specs.Models.{IsModel, IsName};
ghost use Rattle.table_tests.specs.Longer.{AreLonger};

use crate::tables::read;
use flat_model::{FlatModel, FlatName, NameKind};
use std::alloc::Global;
use std::process::Abort;
use sync_values::{List, Text, Value};

/// An Integer input of so many letters.
fn input(rt: &impl Abort, alloc: Global, letters: usize) -> FlatName
    requires { letters ≤ 1000 }
    ensures name { IsName result }
    ensures letters { length result.text ≡ letters }
{
    let text = vec![in alloc; b'u'; letters].expect(rt, "memory");
    FlatName {
        text: Text::from_bytes(alloc, text.as_slice()).expect(rt, "memory"),
        kind: NameKind::Integer,
        input: true,
        start: Value::Int(0),
    }
}

/// So many Integer inputs: `u`, `uu`, `uuu` and so on.
fn inputs(rt: &impl Abort, alloc: Global, count: usize) -> List<FlatName>
    requires { count ≤ 1000 }
    ensures { AreLonger result }
{
    let mut names = List::new(alloc);
    for at in 0..count {
        names.push(input(rt, alloc, at + 1)).expect(rt, "memory");
    }
    names
}

/// The model of so many inputs, without equations.
pub(crate) fn wide_model(rt: &impl Abort, alloc: Global, count: usize) -> FlatModel
    requires { count ≤ 1000 }
    ensures { IsModel result }
{
    FlatModel {
        names: inputs(rt, alloc, count),
        equations: List::new(alloc),
        clauses: List::new(alloc),
    }
}

/// The header of 40 inputs, the last first, and a row in which each has as its value how many letters it has.
fn bytes(rt: &impl Abort, alloc: Global) -> Vec<u8> {
    let mut header = Vec::from_slice(alloc, b"time").expect(rt, "memory");
    let mut row = Vec::from_slice(alloc, b"0").expect(rt, "memory");
    for letters in (1..41usize).rev() {
        header.push(b',').expect(rt, "memory");
        for _ in 0..letters {
            header.push(b'u').expect(rt, "memory");
        }
        let value = format!(in alloc; ",{letters}").expect(rt, "memory");
        row.extend_from_slice(value.as_bytes()).expect(rt, "memory");
    }
    header.push(b'\n').expect(rt, "memory");
    header
        .extend_from_slice(row.as_slice())
        .expect(rt, "memory");
    header
}

/// Columns stand in any order.
#[test]
fn many_inputs_have_their_columns(rt: HostRuntime) {
    let alloc = rt.alloc();
    let flat = wide_model(&rt, alloc, 40);
    let bytes = bytes(&rt, alloc);
    let numbers = read(&rt, alloc, &flat, bytes.as_slice());
    let mut wanted = Vec::from_slice(alloc, &[0, 0, 1]).expect(&rt, "memory");
    for letters in (1..41i64).rev() {
        wanted.push(letters).expect(&rt, "memory");
    }
    assert_eq!(&rt; numbers.as_slice(), wanted.as_slice());
    // The model of one input more has no column for it.
    let wider = wide_model(&rt, alloc, 41);
    let numbers = read(&rt, alloc, &wider, bytes.as_slice());
    assert_eq!(&rt; numbers.first().copied(), Some(2));
    assert_eq!(&rt; numbers.len(), 42);
}
