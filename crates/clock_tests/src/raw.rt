//! The raw model of a text.
ghost use Rattle.std.specs.Prelude.{IfOk};
ghost use Rattle.flat_model.specs.RawModels.{IsRawModel};

use crate::equations::{are_whole, read};
use crate::expressions::Reader;
use crate::names::names;
use flat_model::RawModel;
use mo_lexer::lex;
use mo_parser::{ClassDef, parse};
use std::alloc::{AllocError, Global};
use std::process::Abort;
use sync_values::List;

/// The raw model of a class of a text.
fn raw_of(
    rt: &impl Abort,
    alloc: Global,
    text: &[u8],
    class: &ClassDef,
) -> Result<RawModel, AllocError>
    ensures { IfOk result IsRawModel }
{
    let names = names(rt, alloc, text, class.elements.as_slice())?;
    let mut equations = List::new(alloc);
    let mut clauses = List::new(alloc);
    let reader = Reader {
        alloc,
        text,
        names: names.as_slice(),
    };
    read(
        rt,
        &reader,
        &mut equations,
        &mut clauses,
        class.equations.as_slice(),
    )?;
    if !are_whole(equations.as_slice(), clauses.as_slice()) {
        panic!(rt; "a clause without equations");
    }
    Ok(RawModel {
        names,
        equations,
        clauses,
    })
}

/// The raw model of the one class of a text.
pub(crate) fn raw_model(rt: &impl Abort, alloc: Global, text: &[u8]) -> RawModel
    ensures { IsRawModel result }
{
    assert!(rt; text.len() <= 1_048_576);
    let tokens = lex(alloc, text).expect(rt, "tokens");
    let tree = parse(alloc, text, &tokens).expect(rt, "a tree");
    let class = tree.classes.as_slice().first().expect(rt, "a class");
    raw_of(rt, alloc, text, class).expect(rt, "memory")
}
