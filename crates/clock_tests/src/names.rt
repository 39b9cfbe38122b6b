//! The names that a text declares.
ghost use Rattle.std.specs.Prelude.{◌≡◌, ◌≢◌, ◌<◌, ◌↔◌, All, true, length, IfOk, OnOk, IsTrue};
ghost use Rattle.flat_model.specs.Models.{IsName, AreNames};

use crate::expressions::{spelled, spelling};
use flat_model::{FlatName, NameKind};
use mo_parser::{Causality, Element};
use std::alloc::{AllocError, Global};
use std::process::Abort;
use sync_values::{List, Text, Value};

fn kind_called(word: &[u8]) -> NameKind {
    if word == b"Clock".as_slice() {
        NameKind::Clock
    } else if word == b"Boolean".as_slice() {
        NameKind::Boolean
    } else {
        NameKind::Integer
    }
}

/// A name that starts at 0 or false.
fn name(rt: &impl Abort, alloc: Global, text: &[u8], kind: NameKind, input: bool) -> FlatName
    ensures { IsName result }
{
    assert!(rt; text.len() <= 128);
    let text = Text::from_bytes(alloc, text).expect(rt, "memory");
    match kind {
        NameKind::Integer => FlatName {
            text,
            kind: NameKind::Integer,
            input,
            start: Value::Int(0),
        },
        NameKind::Boolean => FlatName {
            text,
            kind: NameKind::Boolean,
            input,
            start: Value::Bool(false),
        },
        NameKind::Clock => FlatName {
            text,
            kind: NameKind::Clock,
            input: false,
            start: Value::Int(0),
        },
    }
}

fn has_text(name: &FlatName, text: &[u8]) -> bool
    ensures { IsTrue result ↔ (name.now.text ≡ text.now) }
{
    name.text.as_bytes() == text
}

/// Whether no name has the text.
fn is_new(names: &[FlatName], text: &[u8]) -> bool
    ensures { result ≡ true → All (λ name. name.text ≢ text.now) names.now }
{
    for name in names {
        if has_text(name, text) {
            return false;
        }
    }
    true
}

/// Whether the name may stand behind the others.
fn may_follow(names: &[FlatName], name: &FlatName) -> bool
    ensures { result ≡ true → (length names.now < 65536) × All (λ other. other.text ≢ name.now.text) names.now }
{
    names.len() < 65_536 && is_new(names, name.text.as_bytes())
}

fn add(rt: &impl Abort, names: &mut List<FlatName>, name: FlatName) -> Result<(), AllocError>
    requires names { AreNames names.old }
    requires name { IsName name }
    ensures { OnOk result (AreNames names.new) }
{
    if !may_follow(names.as_slice(), &name) {
        panic!(rt; "a second name of one text");
    }
    names.push(name)?;
    Ok(())
}

/// The names of declarations without values.
pub(crate) fn names(
    rt: &impl Abort,
    alloc: Global,
    text: &[u8],
    elements: &[Element],
) -> Result<List<FlatName>, AllocError>
    ensures { IfOk result AreNames }
{
    let mut names = List::new(alloc);
    for element in elements {
        let kind = kind_called(spelling(text, &element.base));
        let input = element.causality == Causality::Input;
        let word = spelled(text, element.name);
        add(rt, &mut names, name(rt, alloc, word, kind, input))?;
    }
    Ok(names)
}
