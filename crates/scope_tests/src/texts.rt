//! Trees of texts.
use mo_lexer::lex;
use mo_parser::{Tree, parse};
use std::alloc::Global;
use std::process::Abort;

const LIMIT: usize = 1 << 20;

/// The tree of a text that has one.
pub fn tree_of(rt: &impl Abort, alloc: Global, text: &[u8]) -> Tree {
    assert!(rt; text.len() <= LIMIT);
    let tokens = lex(alloc, text).ok().expect(rt, "tokens");
    parse(alloc, text, &tokens).ok().expect(rt, "a tree")
}
