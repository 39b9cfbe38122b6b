ghost use Rattle.std.specs.Prelude.{◌≡◌, ◌≤◌, length};
ghost use Rattle.flat_model.specs.Models.{IsModel, IsName};
ghost use Rattle.flat_model.specs.Tables.{IsTableOf};
ghost use Rattle.input_tests.specs.Longer.{AreLonger};

use flat_model::{FlatModel, FlatName, NameKind, Table};
use input_table::read_table;
use std::alloc::Global;
use std::process::Abort;
use sync_values::{List, Text, Value};

/// A name of so many times one letter: `u` is an Integer input, `b` a Boolean one, `c` a Clock, and others are variables.
fn name(rt: &impl Abort, alloc: Global, letter: u8, letters: usize) -> FlatName
    requires { letters ≤ 1000 }
    ensures name { IsName result }
    ensures letters { length result.text ≡ letters }
{
    let text = vec![in alloc; letter; letters].expect(rt, "memory");
    let text = Text::from_bytes(alloc, text.as_slice()).expect(rt, "memory");
    match letter {
        b'u' => FlatName {
            text,
            kind: NameKind::Integer,
            input: true,
            start: Value::Int(0),
        },
        b'b' => FlatName {
            text,
            kind: NameKind::Boolean,
            input: true,
            start: Value::Bool(false),
        },
        b'c' => FlatName {
            text,
            kind: NameKind::Clock,
            input: false,
            start: Value::Int(0),
        },
        _ => FlatName {
            text,
            kind: NameKind::Integer,
            input: false,
            start: Value::Int(0),
        },
    }
}

/// Names of one letter, two letters and so on.
fn names(rt: &impl Abort, alloc: Global, letters: &[u8]) -> List<FlatName>
    requires { length letters.now ≤ 1000 }
    ensures { AreLonger result }
{
    let mut names = List::new(alloc);
    for at in 0..letters.len() {
        names
            .push(name(rt, alloc, letters[at], at + 1))
            .expect(rt, "memory");
    }
    names
}

/// The model of these names, without equations.
pub(crate) fn model(rt: &impl Abort, alloc: Global, letters: &[u8]) -> FlatModel
    requires { length letters.now ≤ 1000 }
    ensures { IsModel result }
{
    FlatModel {
        names: names(rt, alloc, letters),
        equations: List::new(alloc),
        clauses: List::new(alloc),
    }
}

/// The table of a file.
pub(crate) fn table(rt: &impl Abort, alloc: Global, flat: &FlatModel, bytes: &[u8]) -> Table
    requires { IsModel flat.now }
    ensures { IsTableOf flat.now result }
{
    assert!(rt; bytes.len() <= 16_777_216, "a table file is short");
    match read_table(alloc, flat, bytes) {
        Ok(table) => table,
        Err(_) => panic!(rt; "a table breaks no rule"),
    }
}
