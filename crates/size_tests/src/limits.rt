//! Models at their limits and one past them.
ghost use Rattle.std.specs.Prelude.{◌<◌, ◌^◌, IfOk, length};
ghost use Rattle.class_scopes.specs.Reached.{AreReached};

use class_order::class_order;
use class_scopes::{NameCode, RuleEnd, names};
use instance_sizes::{instance_sizes_law, sized_instances};
use mo_lexer::{Token, lex};
use mo_parser::{ClassDef, parse};
use scope_names::Scopes;
use std::alloc::{AllocError, Global};
use std::process::Abort;

const LIMIT: usize = 1 << 20;

/// What a model is answered.
#[derive(Clone, Copy, PartialEq, Eq)]
enum Answer {
    /// So many items that have a part in it.
    Items(usize),
    /// It is too large, told at a byte of the text.
    TooLarge(u32),
    Other,
}

/// The scopes of a text and its classes, of which the last one is chosen.
fn opened<'a>(alloc: Global, text: &'a [u8], classes: &'a [ClassDef]) -> Result<Scopes<'a>, RuleEnd>
    requires { length text.now < 2 ^ 32 }
    ensures { IfOk result (λ scopes. AreReached scopes.named.file.text.now scopes.named.file.classes.now scopes.named.chosen scopes.named.reached.items) }
{
    let named = names(alloc, text, classes, None)?;
    let scopes = Scopes::open(alloc, named)?;
    Ok(scopes)
}

/// How many items of the chosen class have a part in the model.
fn counted(alloc: Global, scopes: &Scopes<'_>, tokens: &[Token]) -> Result<usize, RuleEnd>
    requires { AreReached scopes.now.named.file.text.now scopes.now.named.file.classes.now scopes.now.named.chosen scopes.now.named.reached.items }
{
    let order = class_order(alloc, &scopes.named)?;
    let items = sized_instances(alloc, scopes, order.as_slice(), tokens)?;
    Ok(items.len())
}

/// What a text is answered of which the last class is chosen.
fn answered(rt: &impl Abort, alloc: Global, text: &[u8]) -> Answer {
    assert!(rt; text.len() <= LIMIT);
    let tokens = lex(alloc, text).ok().expect(rt, "tokens");
    let tree = parse(alloc, text, &tokens).ok().expect(rt, "a tree");
    let scopes = opened(alloc, text, tree.classes.as_slice())
        .ok()
        .expect(rt, "scopes");
    match counted(alloc, &scopes, tokens.as_slice()) {
        Ok(items) => Answer::Items(items),
        Err(RuleEnd::Broken(NameCode::N10, at)) => Answer::TooLarge(at),
        Err(_) => Answer::Other,
    }
}

/// A class C0 with a body, and classes up to C3 of sixteen components of the one before, so that C3 has 4,096 instances of C0;
/// then a model M with a body.
fn sixteen(alloc: Global, body: &str, model: &str) -> Result<String, AllocError> {
    let mut text = String::new(alloc);
    let first = format!(in alloc; "block C0 {body} end C0; ")?;
    text.push_str(first.as_str())?;
    for number in 1..4_u32 {
        let below = number.saturating_sub(1);
        let start = format!(in alloc; "block C{number} ")?;
        text.push_str(start.as_str())?;
        for part in 0..16 {
            let component = format!(in alloc; "C{below} a{part}; ")?;
            text.push_str(component.as_str())?;
        }
        let end = format!(in alloc; "end C{number}; ")?;
        text.push_str(end.as_str())?;
    }
    let last = format!(in alloc; "model M {model} end M;")?;
    text.push_str(last.as_str())?;
    Ok(text)
}

/// A text so many times.
fn times(alloc: Global, count: usize, piece: &str) -> Result<String, AllocError> {
    let mut text = String::new(alloc);
    for _ in 0..count {
        text.push_str(piece)?;
    }
    Ok(text)
}

/// Sixteen variables.
const VARIABLES: &str = "Integer a, b, c, d, e, f, g, h, i, j, k, l, m, n, o, p;";

/// The answer that is wanted: a model that is too large is told at its name, in front of its body at the end of the text.
fn wanted_of(text: &[u8], model: &str, wanted: Answer) -> Answer {
    let back = model.len().saturating_add(9);
    match wanted {
        Answer::TooLarge(_) => {
            if back <= text.len() && text.len() <= LIMIT {
                Answer::TooLarge((text.len() - back) as u32)
            } else {
                Answer::Other
            }
        }
        other => other,
    }
}

/// Whether models of sixteen classes are answered so.
fn all_answered(rt: &impl Abort, alloc: Global, body: &str, rows: &[(&str, Answer)]) -> bool {
    for row in rows {
        let text = sixteen(alloc, body, row.0).ok().expect(rt, "memory");
        if answered(rt, alloc, text.as_bytes()) != wanted_of(text.as_bytes(), row.0, row.1) {
            return false;
        }
    }
    true
}

#[test]
fn names_at_the_limit(rt: HostRuntime) {
    let rows = [
        ("C3 x;", Answer::Items(65_536)),
        ("C3 x; Integer y;", Answer::TooLarge(0)),
        ("C3 x; constant Integer y = 1;", Answer::TooLarge(0)),
    ];
    assert!(rt; all_answered(&rt, rt.alloc(), VARIABLES, rows.as_slice()));
}

#[test]
fn equations_at_the_limit(rt: HostRuntime) {
    let equations = times(rt.alloc(), 14, "1 = 1; ").ok().expect(&rt, "memory");
    let body = format!(in rt.alloc();
        "equation {equations} when Clock(1) then 1 = 1; 1 = 1; end when;"
    ).ok()
        .expect(&rt, "memory");
    let rows = [
        ("C3 x;", Answer::Items(4_096)),
        ("C3 x; parameter Integer y = 1;", Answer::Items(4_097)),
        ("C3 x; Integer y = 1;", Answer::TooLarge(0)),
        ("C3 x; equation 1 = 1;", Answer::TooLarge(0)),
    ];
    assert!(rt; all_answered(&rt, rt.alloc(), body.as_str(), rows.as_slice()));
}

/// An expression of twice as many tokens and one more.
fn sum(alloc: Global, count: usize) -> Result<String, AllocError> {
    let more = times(alloc, count, " + 1")?;
    format!(in alloc; "1{more}")
}

/// Eight equations of 127 tokens in 4,096 instances leave 32,768 of 4,194,304 tokens.
#[test]
fn tokens_at_the_limit(rt: HostRuntime) {
    let alloc = rt.alloc();
    let side = sum(alloc, 62).ok().expect(&rt, "memory");
    let equation = format!(in alloc; "1 = {side}; ").ok().expect(&rt, "memory");
    let equations = times(alloc, 8, equation.as_str())
        .ok()
        .expect(&rt, "memory");
    let body = format!(in alloc; "equation {equations}")
        .ok()
        .expect(&rt, "memory");
    let even = sum(alloc, 16_382).ok().expect(&rt, "memory");
    let odd = sum(alloc, 16_383).ok().expect(&rt, "memory");
    let at = format!(in alloc; "C3 x; Integer y = -{even};")
        .ok()
        .expect(&rt, "memory");
    let past = format!(in alloc; "C3 x; Integer y = {odd};")
        .ok()
        .expect(&rt, "memory");
    let start = format!(in alloc; "C3 x; Integer y(start = 1) = -{even};")
        .ok()
        .expect(&rt, "memory");
    let fixed = format!(in alloc; "C3 x; parameter Integer y(start = 1) = {odd};")
        .ok()
        .expect(&rt, "memory");
    let rows = [
        (at.as_str(), Answer::Items(4_097)),
        (past.as_str(), Answer::TooLarge(0)),
        (start.as_str(), Answer::TooLarge(0)),
        (fixed.as_str(), Answer::Items(4_097)),
    ];
    assert!(rt; all_answered(&rt, alloc, body.as_str(), rows.as_slice()));
}

/// A connector of 255 variables and one more member, and so many connects.
fn connected(alloc: Global, member: &str, model: &str) -> Result<String, AllocError> {
    let mut text = String::new(alloc);
    text.push_str("connector P ")?;
    for number in 0..255 {
        let declared = format!(in alloc; "Integer v{number}; ")?;
        text.push_str(declared.as_str())?;
    }
    let last = format!(in alloc; "{member} end P; model M {model} end M;")?;
    text.push_str(last.as_str())?;
    Ok(text)
}

#[test]
fn pairs_are_counted(rt: HostRuntime) {
    let alloc = rt.alloc();
    let rows = [
        ("Integer w;", 256, Answer::Items(513)),
        ("Integer w;", 257, Answer::TooLarge(0)),
        ("parameter Integer w;", 257, Answer::Items(513)),
    ];
    for row in rows.iter() {
        let connects = times(alloc, row.1, "connect(a, b); ")
            .ok()
            .expect(&rt, "memory");
        let model = format!(in alloc; "P a; P b; equation {connects}")
            .ok()
            .expect(&rt, "memory");
        let text = connected(alloc, row.0, model.as_str())
            .ok()
            .expect(&rt, "memory");
        let wanted = wanted_of(text.as_bytes(), model.as_str(), row.2);
        assert!(rt;
            answered(&rt, alloc, text.as_bytes()) == wanted,
            "{} times",
            row.1
        );
    }
}

/// So many classes behind others, the first with a body, each other with two components of the one before, and a model that has
/// two components of the last of them and a variable.
fn doubled(alloc: Global, count: usize, start: &str, body: &str) -> Result<String, AllocError> {
    let mut text = format!(in alloc; "{start} block C0 {body} end C0; ")?;
    for number in 1..count {
        let below = number.saturating_sub(1);
        let class = format!(in alloc; "block C{number} C{below} a; C{below} b; end C{number}; ")?;
        text.push_str(class.as_str())?;
    }
    text.push_str("model M C30 a; Integer x; C30 b; end M;")?;
    Ok(text)
}

/// 2^31 instances, of which none is walked.
#[test]
fn many_instances_at_once(rt: HostRuntime) {
    let model = "C30 a; Integer x; C30 b;";
    let rows = [
        ("", "", Answer::Items(1)),
        (
            "connector E end E;",
            "E a; E b; equation connect(a, b); when Clock(1) then end when;",
            Answer::Items(1),
        ),
        ("", "Integer v;", Answer::TooLarge(0)),
        ("", "equation 1 = 1;", Answer::TooLarge(0)),
    ];
    for row in rows.iter() {
        let text = doubled(rt.alloc(), 31, row.0, row.1)
            .ok()
            .expect(&rt, "memory");
        let wanted = wanted_of(text.as_bytes(), model, row.2);
        assert!(rt;
            answered(&rt, rt.alloc(), text.as_bytes()) == wanted,
            "{}",
            row.1
        );
    }
    instance_sizes_law();
}
