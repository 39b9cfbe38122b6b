//! The flat models of texts, or why there is none, as they are printed.
ghost use Rattle.std.specs.Prelude.{◌≤◌, ◌^◌, IfOk, length};
ghost use Rattle.mo_flatten.specs.Texts.{IsTreeOf};

use crate::printed::{model_text, refusal_text};
use flat_model::RawModel;
use mo_flatten::{FlattenEnd, flatten};
use mo_lexer::lex;
use mo_parser::{Tree, parse};
use std::alloc::{AllocError, Global};
use std::process::Abort;

/// The greatest length of a text.
const LIMIT: usize = 1 << 20;

/// The tree of a text that has one.
fn tree_of(alloc: Global, text: &[u8]) -> Result<Tree, AllocError>
    requires { length text.now ≤ 2 ^ 20 }
    ensures { IfOk result (IsTreeOf text.now) }
{
    match lex(alloc, text) {
        Ok(tokens) => match parse(alloc, text, &tokens) {
            Ok(tree) => Ok(tree),
            Err(_) => Err(AllocError),
        },
        Err(_) => Err(AllocError),
    }
}

/// The flat model of a class of a text, or of its last class, or the refusal.
fn model_of(
    rt: &impl Abort,
    alloc: Global,
    text: &[u8],
    class: Option<&str>,
) -> Result<RawModel, FlattenEnd> {
    assert!(rt; text.len() <= LIMIT);
    match tree_of(alloc, text) {
        Ok(tree) => flatten(alloc, text, &tree, class),
        Err(_) => panic!(rt; "no tree"),
    }
}

/// The printed refusal.
fn refused(rt: &impl Abort, alloc: Global, end: FlattenEnd) -> String {
    match end {
        FlattenEnd::Fault { code, place } => refusal_text(alloc, code, &place)
            .ok()
            .expect(rt, "memory to print"),
        FlattenEnd::NoMemory => panic!(rt; "no memory to flatten"),
    }
}

/// The printed flat model of a class of a text, or of its last class, or the printed refusal.
pub(crate) fn flattened(
    rt: &impl Abort,
    alloc: Global,
    text: &[u8],
    class: Option<&str>,
) -> String {
    match model_of(rt, alloc, text, class) {
        Ok(model) => model_text(alloc, &model).ok().expect(rt, "memory to print"),
        Err(end) => refused(rt, alloc, end),
    }
}

/// The number of names and of equations of the flat model of a text's last class, or the printed refusal.
pub(crate) fn counted(
    rt: &impl Abort,
    alloc: Global,
    text: &[u8],
) -> Result<(usize, usize), String> {
    match model_of(rt, alloc, text, None) {
        Ok(model) => Ok((model.names.len(), model.equations.len())),
        Err(end) => Err(refused(rt, alloc, end)),
    }
}
