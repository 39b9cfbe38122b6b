//! Instances that have something in them, and none of the others.
ghost use Rattle.class_scopes.specs.Reached.{AreReached};

use class_order::{class_order, filled};
use class_scopes::{Named, RuleEnd, names};
use filled_instances::{filled_instances, filled_instances_law};
use flat_instances::Item;
use mo_lexer::lex;
use mo_parser::{Tree, parse};
use std::alloc::{AllocError, Global};
use std::process::Abort;

const LIMIT: usize = 1 << 20;

/// E and F have nothing in them; K has an equation, V has none.
const MODEL: &[u8] =
    b"block E end E; block F E a; E b; end F; connector I = input Integer(start = 4); block K F f; I y; equation y = 1; end K; block V E e; Integer v; end V; model M F f; K k; V w; E e; end M;";

/// Marks of the classes with something of their own, and what counts in flat order: variables, and `=` before the scope of an
/// instance where its own equations stand.
const ROWS: [(&[bool], &[&str]); 3] = [
    (&[false, false, false, true], &["k.y", "=k.", "w.v"]),
    (
        &[false, false, false, true, false, true],
        &["k.y", "=k.", "w.v", "="],
    ),
    (
        &[true],
        &[
            "=f.a.", "=f.b.", "=k.f.a.", "=k.f.b.", "k.y", "=w.e.", "w.v", "=e.",
        ],
    ),
];

/// The tree of a text that has one.
fn tree_of(rt: &impl Abort, alloc: Global, text: &[u8]) -> Tree {
    assert!(rt; text.len() <= LIMIT);
    let tokens = lex(alloc, text).ok().expect(rt, "tokens");
    parse(alloc, text, &tokens).ok().expect(rt, "a tree")
}

/// What counts of the instances of the chosen class.
fn walked<'a>(alloc: Global, named: &'a Named<'a>, own: &[bool]) -> Result<Vec<Item<'a>>, RuleEnd>
    requires { AreReached named.now.file.text.now named.now.file.classes.now named.now.chosen named.now.reached.items }
{
    let order = class_order(alloc, named)?;
    let marks = filled(alloc, named, order.as_slice(), own)?;
    let found = filled_instances(alloc, &named.file, named.chosen, own, marks.as_slice())?;
    Ok(found)
}

fn is_item(item: &Item<'_>, want: &str) -> bool {
    match item {
        Item::Declared(variable) => variable.name.as_bytes() == want.as_bytes(),
        Item::Own(scope, _) => {
            let [first, rest @ ..] = want.as_bytes() else {
                return false;
            };
            *first == b'=' && rest == scope.as_bytes()
        }
    }
}

fn are_items(found: &[Item<'_>], wanted: &[&str]) -> bool {
    if found.len() != wanted.len() {
        return false;
    }
    for (number, item) in found.iter().enumerate() {
        if !is_item(item, wanted[number]) {
            return false;
        }
    }
    true
}

/// Whether these are the items of a text of which the last class is chosen.
fn gives(rt: &impl Abort, alloc: Global, text: &[u8], own: &[bool], wanted: &[&str]) -> bool {
    assert!(rt; text.len() <= LIMIT);
    let tree = tree_of(rt, alloc, text);
    let named = names(alloc, text, tree.classes.as_slice(), None)
        .ok()
        .expect(rt, "names");
    let found = walked(alloc, &named, own).ok().expect(rt, "items");
    are_items(found.as_slice(), wanted)
}

#[test]
fn items_that_count(rt: HostRuntime) {
    for (number, row) in ROWS.iter().enumerate() {
        assert!(rt;
            gives(&rt, rt.alloc(), MODEL, row.0, row.1),
            "at {}",
            number
        );
    }
    filled_instances_law();
}

/// So many classes, the first without anything, each other with two components of the one before, and a last one that has two
/// components of the last of them and a variable.
fn doubled(alloc: Global, count: usize) -> Result<String, AllocError> {
    let mut text = String::new(alloc);
    text.push_str("block C0 end C0; ")?;
    for number in 1..count {
        let below = number - 1;
        let class = format!(in alloc; "block C{number} C{below} a; C{below} b; end C{number}; ")?;
        text.push_str(class.as_str())?;
    }
    text.push_str("model M C31 a; Integer x; C31 b; end M;")?;
    Ok(text)
}

#[test]
fn empty_instances_are_not_walked(rt: HostRuntime) {
    let text = doubled(rt.alloc(), 32).ok().expect(&rt, "memory");
    assert!(rt; gives(&rt, rt.alloc(), text.as_bytes(), &[], &["x"]));
}
