//! Classes inside themselves, depths and contents of classes.
ghost use Rattle.class_scopes.specs.Reached.{AreReached};

use class_order::{class_order, class_order_law, filled, too_deep};
use class_scopes::{NameCode, Named, RuleEnd, names};
use mo_lexer::lex;
use mo_parser::{Tree, parse};
use std::alloc::{AllocError, Global};
use std::process::Abort;

const LIMIT: usize = 1 << 20;

/// The marks of all classes, or the first broken rule with its place.
type Answer = Result<&'static [bool], (NameCode, u32)>;

/// A text, of which the last class is chosen, the marks of classes with something of their own, and the answer.
const ROWS: [(&[u8], &[bool], Answer); 10] = [
    (b"model A A x; end A;", &[false], Err((NameCode::N4, 6))),
    (
        b"model A B b; end A; model B A a; end B;",
        &[false, false],
        Err((NameCode::N4, 6)),
    ),
    // a class that is not reached does not count
    (
        b"model A A a; end A; model B B b; end B; model C B b; end C;",
        &[],
        Err((NameCode::N4, 26)),
    ),
    // the first of two
    (
        b"model A A a; end A; model B B b; end B; model C B b; A a; end C;",
        &[],
        Err((NameCode::N4, 6)),
    ),
    // a class that has such a class inside is none itself
    (
        b"model W C c; end W; model C C c; end C; model M W w; end M;",
        &[],
        Err((NameCode::N4, 26)),
    ),
    (b"model M Integer x; end M;", &[], Ok(&[true])),
    // variables count at any depth, components alone do not
    (
        b"model E end E; model F E e; end F; model V F f; Boolean x; end V; model M V v; E e; end M;",
        &[],
        Ok(&[false, false, true, true]),
    ),
    (
        b"connector I = Integer; model M I i; end M;",
        &[],
        Ok(&[false, true]),
    ),
    (b"model M Real r; end M;", &[], Ok(&[false])),
    // what a class has of its own counts in those that it stands in
    (
        b"model E end E; model M E e; end M;",
        &[true],
        Ok(&[true, true]),
    ),
];

/// The marks of classes that have something in them, or the first broken rule.
fn judged(alloc: Global, named: &Named<'_>, own: &[bool]) -> Result<Vec<bool>, RuleEnd>
    requires { AreReached named.now.file.text.now named.now.file.classes.now named.now.chosen named.now.reached.items }
{
    let order = class_order(alloc, named)?;
    match too_deep(alloc, named, order.as_slice())? {
        Some(at) => Err(RuleEnd::Broken(NameCode::N11, at)),
        None => {
            let marks = filled(alloc, named, order.as_slice(), own)?;
            Ok(marks)
        }
    }
}

/// The tree of a text that has one.
fn tree_of(rt: &impl Abort, alloc: Global, text: &[u8]) -> Tree {
    assert!(rt; text.len() <= LIMIT);
    let tokens = lex(alloc, text).ok().expect(rt, "tokens");
    parse(alloc, text, &tokens).ok().expect(rt, "a tree")
}

/// The answer for a text of which the last class is chosen.
fn answer(rt: &impl Abort, alloc: Global, text: &[u8], own: &[bool]) -> Result<Vec<bool>, RuleEnd> {
    assert!(rt; text.len() <= LIMIT);
    let tree = tree_of(rt, alloc, text);
    match names(alloc, text, tree.classes.as_slice(), None) {
        Err(end) => Err(end),
        Ok(named) => judged(alloc, &named, own),
    }
}

/// Whether an answer is the wanted one.
fn is_wanted(answer: &Result<Vec<bool>, RuleEnd>, want: &Answer) -> bool {
    match (answer, want) {
        (Ok(marks), Ok(wanted)) => marks.as_slice() == *wanted,
        (Err(RuleEnd::Broken(code, at)), Err(wanted)) => *code == wanted.0 && *at == wanted.1,
        _ => false,
    }
}

#[test]
fn rules_and_contents(rt: HostRuntime) {
    for row in &ROWS {
        let found = answer(&rt, rt.alloc(), row.0, row.1);
        assert!(rt; is_wanted(&found, &row.2), "at {:?}", row.0);
    }
    class_order_law();
}

/// So many classes, each with a component of the one before, the first with an Integer.
fn chain(alloc: Global, count: usize) -> Result<String, AllocError> {
    let mut text = String::new(alloc);
    text.push_str("model C0 Integer x; end C0; ")?;
    for number in 1..count {
        let below = number - 1;
        let class = format!(in alloc; "model C{number} C{below} c; end C{number}; ")?;
        text.push_str(class.as_str())?;
    }
    Ok(text)
}

#[test]
fn depths(rt: HostRuntime) {
    let alloc = rt.alloc();
    let most = chain(alloc, 32).ok().expect(&rt, "memory");
    assert!(rt; answer(&rt, alloc, most.as_bytes(), &[]).is_ok());
    // the name of the last class stands 6 bytes behind the others
    let more = chain(alloc, 33).ok().expect(&rt, "memory");
    let place = most.len() + 6;
    match answer(&rt, alloc, more.as_bytes(), &[]) {
        Err(RuleEnd::Broken(code, at)) => {
            assert!(rt; code == NameCode::N11 && at as usize == place);
        }
        _ => assert!(rt; false, "not refused"),
    }
}
