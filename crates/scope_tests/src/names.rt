//! Tests of the rules of classes.
ghost use Rattle.class_scopes.specs.Reached.{AreReached};

use crate::texts::tree_of;
use class_order::{class_order, too_deep};
use class_rules::{refused_type, unfit_connect};
use class_scopes::{NameCode, Named, RuleEnd, names};
use scope_names::{Scopes, unknown_name};
use std::alloc::{AllocError, Global};
use std::process::Abort;

const LIMIT: usize = 1 << 20;

/// A text, the chosen class, and the first broken rule of classes with its place, a byte of the text.
type Row = (&'static [u8], Option<&'static str>, Option<(NameCode, u32)>);

/// Each class but the first has a component of the one before it; the last, the 33rd, has components down to depth 33.
const DEEP: &[u8] =
    b"model A Integer x;end A;model B A x;end B;model C B x;end C;model D C x;end D;model E D x;end E;model F E x;end F;model G F x;end G;model H G x;end H;model I H x;end I;model J I x;end J;model K J x;end K;model L K x;end L;model M L x;end M;model N M x;end N;model O N x;end O;model P O x;end P;model Q P x;end Q;model R Q x;end R;model S R x;end S;model T S x;end T;model U T x;end U;model V U x;end V;model W V x;end W;model X W x;end X;model Y X x;end Y;model Z Y x;end Z;model a Z x;end a;model b a x;end b;model c b x;end c;model d c x;end d;model e d x;end e;model f e x;end f;model g f x;end g;";

const ROWS: [Row; 40] = [
    (DEEP, Some("f"), None),
    (DEEP, None, Some((NameCode::N11, 588))),
    (b"", None, Some((NameCode::N1, 0))),
    (
        b"model M Integer x; end M;",
        Some("N"),
        Some((NameCode::N1, 25)),
    ),
    // an unknown type name comes before a second name
    (
        b"model M Integer x; Integer x; B b; end M;",
        None,
        Some((NameCode::N1, 30)),
    ),
    // of a reached class, at its first part where it has dots
    (
        b"model A B.C x; end A; model M A a; end M;",
        None,
        Some((NameCode::N1, 8)),
    ),
    // of a class that is not reached it is none
    (b"model A C x; end A; model M Integer y; end M;", None, None),
    // a class that is named like a predefined type is not meant by its name
    (
        b"model Integer C x; end Integer; model M Integer y; end M;",
        None,
        None,
    ),
    // the base of a short connector
    (
        b"connector C = D; model M C c; end M;",
        None,
        Some((NameCode::N1, 14)),
    ),
    (
        b"model M Integer x; Integer x; end M;",
        None,
        Some((NameCode::N2, 27)),
    ),
    // the first class of a name is meant, and the second is a second name
    (
        b"model A A x; C y; end A; model A end A; model B A a; end B;",
        None,
        Some((NameCode::N1, 13)),
    ),
    (
        b"model A A x; end A; model A end A; model B A a; end B;",
        None,
        Some((NameCode::N2, 26)),
    ),
    // second classes count wherever they stand, second components in reached classes alone
    (
        b"model A end A; model A end A; model M end M;",
        None,
        Some((NameCode::N2, 21)),
    ),
    (b"model A Integer x, x; end A; model M end M;", None, None),
    (
        b"model M Integer x; equation x = y; end M;",
        None,
        Some((NameCode::N3, 32)),
    ),
    // names go through components, but not beyond a variable
    (
        b"model A Integer x; end A; model M A a; Integer y; equation y = a.x; end M;",
        None,
        None,
    ),
    (
        b"model A Integer x; end A; model M A a; Integer y; equation y = a.x.z; end M;",
        None,
        Some((NameCode::N3, 63)),
    ),
    // a component is no variable
    (
        b"model A end A; model M A a; Integer y; equation y = a; end M;",
        None,
        Some((NameCode::N3, 52)),
    ),
    // `time` resolves by itself, `time.x` through a component
    (b"model M Integer y; equation y = time; end M;", None, None),
    (
        b"model M Integer y; equation y = time.x; end M;",
        None,
        Some((NameCode::N3, 32)),
    ),
    // a called function is not resolved, its arguments are
    (
        b"model M Integer y; equation y = f(y, z); end M;",
        None,
        Some((NameCode::N3, 37)),
    ),
    // a Real counts as a variable, and is then not allowed
    (
        b"model M Real r; Integer y; equation y = r; end M;",
        None,
        Some((NameCode::N9, 8)),
    ),
    // a modification is read where it is written, also one that an outer one overrides
    (
        b"model A Integer x; end A; model M A a(x = x); end M;",
        None,
        Some((NameCode::N3, 42)),
    ),
    // in a short connector nothing but `time` is known
    (
        b"connector C = Integer(start = k); model M parameter Integer k = 1; C c; end M;",
        None,
        Some((NameCode::N3, 30)),
    ),
    // a connect takes any component, and not `time`; then it wants connectors
    (
        b"model A end A; model M A a; Integer b; equation connect(a, b); end M;",
        None,
        Some((NameCode::N8, 56)),
    ),
    (
        b"model A end A; model M A a; equation connect(a, time); end M;",
        None,
        Some((NameCode::N3, 48)),
    ),
    // the first class that contains itself is told at its name, a class that is not reached does not count
    (
        b"model A B b; end A; model B A a; end B; model M B b; end M;",
        None,
        Some((NameCode::N4, 6)),
    ),
    (b"model A A a; end A; model M Integer y; end M;", None, None),
    // connectors want the same members in the same order, a short connector one without a name
    (
        b"connector C Integer x; end C; model M C a; C b; equation connect(a, b); end M;",
        None,
        None,
    ),
    (
        b"connector C Integer x; end C; connector D Integer y; end D; model M C a; D b; equation connect(a, b); end M;",
        None,
        Some((NameCode::N8, 95)),
    ),
    (
        b"connector C Integer x; end C; connector D Boolean x; end D; model M C a; D b; equation connect(a, b); end M;",
        None,
        Some((NameCode::N8, 95)),
    ),
    (
        b"connector I = input Integer; connector O = output Integer; model M I a; O b; equation connect(a, b); end M;",
        None,
        None,
    ),
    (
        b"connector I = input Integer; block B Integer x; end B; model M I a; B b; equation connect(a, b); end M;",
        None,
        Some((NameCode::N8, 93)),
    ),
    // types that are not allowed, and where
    (
        b"connector C = Real; model M C c; end M;",
        None,
        Some((NameCode::N9, 14)),
    ),
    (
        b"connector C = D; connector D = Integer; model M C c; end M;",
        None,
        Some((NameCode::N9, 14)),
    ),
    (
        b"connector D Integer x; end D; connector C D d; end C; model M C c; end M;",
        None,
        Some((NameCode::N9, 42)),
    ),
    (
        b"model M parameter Clock c; end M;",
        None,
        Some((NameCode::N9, 18)),
    ),
    (
        b"block B end B; model M input B b; end M;",
        None,
        Some((NameCode::N9, 29)),
    ),
    // N8 comes before N9
    (
        b"model M Real r; Integer a; equation connect(a, a); end M;",
        None,
        Some((NameCode::N8, 44)),
    ),
    // N4 comes before N8
    (
        b"model A A a; equation connect(a, a); end A;",
        None,
        Some((NameCode::N4, 6)),
    ),
];

/// The first broken rule of those behind N2.
fn first_of_scopes(
    alloc: Global,
    scopes: &Scopes<'_>,
) -> Result<Option<(NameCode, u32)>, AllocError>
    requires { AreReached scopes.now.named.file.text.now scopes.now.named.file.classes.now scopes.now.named.chosen scopes.now.named.reached.items }
{
    if let Some(at) = unknown_name(alloc, scopes)? {
        return Ok(Some((NameCode::N3, at)));
    }
    let order = match class_order(alloc, &scopes.named) {
        Ok(order) => order,
        Err(RuleEnd::Broken(code, at)) => return Ok(Some((code, at))),
        Err(RuleEnd::NoMemory) => return Err(AllocError),
    };
    if let Some(at) = unfit_connect(scopes) {
        return Ok(Some((NameCode::N8, at)));
    }
    if let Some(at) = refused_type(&scopes.named) {
        return Ok(Some((NameCode::N9, at)));
    }
    if let Some(at) = too_deep(alloc, &scopes.named, order.as_slice())? {
        return Ok(Some((NameCode::N11, at)));
    }
    Ok(None)
}

/// The first broken rule behind N2 of a file with its names.
fn first_behind(alloc: Global, named: Named<'_>) -> Result<Option<(NameCode, u32)>, AllocError>
    requires { AreReached named.file.text.now named.file.classes.now named.chosen named.reached.items }
{
    let scopes = Scopes::open(alloc, named)?;
    first_of_scopes(alloc, &scopes)
}

/// The bytes of a name.
fn bytes_of(name: Option<&'static str>) -> Option<&'static [u8]> {
    match name {
        Some(name) => Some(name.as_bytes()),
        None => None,
    }
}

/// The first broken rule of classes.
fn first_broken(
    alloc: Global,
    rt: &impl Abort,
    text: &[u8],
    class: Option<&[u8]>,
) -> Option<(NameCode, u32)> {
    assert!(rt; text.len() <= LIMIT);
    let tree = tree_of(rt, alloc, text);
    match names(alloc, text, tree.classes.as_slice(), class) {
        Err(RuleEnd::Broken(code, at)) => Some((code, at)),
        Err(RuleEnd::NoMemory) => {
            assert!(rt; false, "memory");
            None
        }
        Ok(named) => first_behind(alloc, named).ok().expect(rt, "memory"),
    }
}

#[test]
fn first_broken_rules(rt: HostRuntime) {
    for row in &ROWS {
        let found = first_broken(rt.alloc(), &rt, row.0, bytes_of(row.1));
        assert!(rt; found == row.2, "at {:?}", row.0);
    }
}
