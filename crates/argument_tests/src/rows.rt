//! Tests of the arguments of modifications.
ghost use Rattle.class_scopes.specs.Reached.{AreReached};

use argument_rules::misplaced_argument;
use class_scopes::{Named, names};
use mo_lexer::lex;
use mo_parser::parse;
use scope_names::Scopes;
use std::alloc::{AllocError, Global};
use std::process::Abort;

const LIMIT: usize = 1 << 20;

/// A text, and the byte of the first wrong modification in the classes that are reached from `M`.
type Row = (&'static [u8], Option<u32>);

const ROWS: [Row; 28] = [
    // what has names is kept
    (
        b"model M Integer x(start = 1, min = 0, max = 9, quantity = 1), y(start = 1); end M;",
        None,
    ),
    (
        b"model A Integer x; end A; model B A a; end B; model M B b(a.x.start = 1, a(x = 2)); end M;",
        None,
    ),
    // an unknown attribute, and a path into an attribute
    (b"model M Integer x(fixed = true); end M;", Some(18)),
    (b"model M Integer x(start.a = 1); end M;", Some(18)),
    (b"model M Integer x(start(a = 1)); end M;", Some(24)),
    // a Clock has no attributes, and a component with parts none
    (b"model M Clock c(start = 1); end M;", Some(16)),
    (
        b"model A Integer b; end A; model M A a(start = 1); end M;",
        Some(38),
    ),
    // an unknown component, also behind dots
    (
        b"model A Integer b; end A; model M A a(c = 1); end M;",
        Some(38),
    ),
    (
        b"model A Integer x; end A; model B A a; end B; model M B b(a.y = 1); end M;",
        Some(58),
    ),
    // a second one of a path, whose place is that of the argument which ends it
    (
        b"model M Integer x(start = 1, start = 2, fixed = true); end M;",
        Some(29),
    ),
    (b"model M Integer x(start, start = 2); end M;", Some(25)),
    (
        b"model A Integer b; end A; model M A a(b(start = 1), b.start = 2); end M;",
        Some(52),
    ),
    (
        b"model A Integer x; end A; model B A a; end B; model M B b(a.x.start = 1, a(x.start = 2)); end M;",
        Some(75),
    ),
    // an argument with nested ones counts by its own path where it has a value
    (
        b"model A Integer b; end A; model M A a(b(start = 1), b = 3); end M;",
        None,
    ),
    (
        b"model A Integer b; end A; model M A a(b(start = 1) = 2, b = 3); end M;",
        Some(56),
    ),
    // a value of what is not simple
    (
        b"model A Integer b; end A; model M A a = 1; end M;",
        Some(36),
    ),
    (
        b"model A Integer x; end A; model B A a; end B; model M B b(a = 1); end M;",
        Some(58),
    ),
    (b"model M Real x = 1; end M;", Some(13)),
    (b"model M Real x(start = 1); end M;", Some(15)),
    // a short connector is simple with any base, and has attributes but of a Clock
    (b"connector R = Real(start = 1); model M R r; end M;", None),
    (
        b"connector R = Integer; model M R r(start = 1) = 2; end M;",
        None,
    ),
    (
        b"connector R = Clock(start = 1); model M R r; end M;",
        Some(20),
    ),
    (
        b"connector R = Integer(start = 1, start = 2); model M R r; end M;",
        Some(33),
    ),
    (
        b"connector R = Integer(x = 1); model M R r; end M;",
        Some(22),
    ),
    (
        b"connector R = Clock; model M R r(start = 1); end M;",
        Some(33),
    ),
    // the least place over the classes that are reached
    (
        b"model A Integer x(fixed = true); end A; model M Integer y; end M;",
        None,
    ),
    (
        b"model A Integer x(fixed = true); end A; model M A a(b = 1); end M;",
        Some(18),
    ),
    (
        b"model M A a(b = 1); end M; model A Integer x(fixed = true); end A;",
        Some(12),
    ),
];

/// The first wrong modification of a file with its names.
fn first_behind(alloc: Global, named: Named<'_>) -> Result<Option<u32>, AllocError>
    requires { AreReached named.file.text.now named.file.classes.now named.chosen named.reached.items }
{
    let scopes = Scopes::open(alloc, named)?;
    misplaced_argument(alloc, &scopes)
}

/// The first wrong modification in the classes that are reached from a class.
fn first_wrong(alloc: Global, rt: &impl Abort, text: &[u8], class: Option<&[u8]>) -> Option<u32> {
    assert!(rt; text.len() <= LIMIT);
    let tokens = lex(alloc, text).ok().expect(rt, "tokens");
    let tree = parse(alloc, text, &tokens).ok().expect(rt, "a tree");
    match names(alloc, text, tree.classes.as_slice(), class) {
        Err(_) => {
            assert!(rt; false, "names are known");
            None
        }
        Ok(named) => first_behind(alloc, named).ok().expect(rt, "memory"),
    }
}

#[test]
fn first_wrong_modifications(rt: HostRuntime) {
    for row in &ROWS {
        let found = first_wrong(rt.alloc(), &rt, row.0, Some(b"M".as_slice()));
        assert!(rt; found == row.1, "at {:?}", row.0);
    }
}
