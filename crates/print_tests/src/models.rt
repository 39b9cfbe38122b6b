ghost use Rattle.std.specs.Prelude.{◌≡◌, ◌≢◌, ◌≤◌, true, All, length};
ghost use Rattle.flat_model.specs.Models.{IsName};
ghost use Rattle.flat_model.specs.Trace.{columns_of};
ghost use Rattle.flat_model.specs.declared.model.NameKind.TheVariants as kinds;

use flat_model::{FlatModel, FlatName, NameKind};
use std::alloc::Global;
use std::process::Abort;
use sync_values::{List, Text, Value};

/// A name that starts at 0 or false.
pub fn name(rt: &impl Abort, alloc: Global, text: &[u8], kind: NameKind, input: bool) -> FlatName
    requires short { length text.now ≤ 100 }
    requires input { input ≡ true → kind ≢ kinds.Clock }
    ensures name { IsName result }
    ensures kind { result.kind ≡ kind }
{
    let text = Text::from_bytes(alloc, text).expect(rt, "memory");
    let start = match kind {
        NameKind::Boolean => Value::Bool(false),
        _ => Value::Int(0),
    };
    FlatName {
        text,
        kind,
        input,
        start,
    }
}

/// The model of an Integer `n`, a Boolean `b`, a Clock `c` and an Integer input `f.u`, without equations.
pub fn four(rt: &impl Abort, alloc: Global) -> FlatModel
    ensures few { length result.names ≤ 65536 }
    ensures names { All IsName result.names }
    ensures columns { length (columns_of result.names) ≡ 3 }
{
    let mut names = List::new(alloc);
    names
        .push(name(rt, alloc, b"n", NameKind::Integer, false))
        .expect(rt, "memory");
    names
        .push(name(rt, alloc, b"b", NameKind::Boolean, false))
        .expect(rt, "memory");
    names
        .push(name(rt, alloc, b"c", NameKind::Clock, false))
        .expect(rt, "memory");
    names
        .push(name(rt, alloc, b"f.u", NameKind::Integer, true))
        .expect(rt, "memory");
    FlatModel {
        names,
        equations: List::new(alloc),
        clauses: List::new(alloc),
    }
}
