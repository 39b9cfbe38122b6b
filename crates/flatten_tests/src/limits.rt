//! The limits of flattening, each just kept and just passed, on texts that are made here.
use crate::flattened::counted;
use std::alloc::{AllocError, Global};
use std::process::Abort;

/// How many names and equations a flat model has, or the refusal.
type Want = Result<(usize, usize), &'static str>;

/// Adds so many components of a class.
fn add_components(
    alloc: Global,
    text: &mut String,
    class: &str,
    count: usize,
) -> Result<(), AllocError> {
    for number in 0..count {
        text.push_str(format!(in alloc; "{class} c{number}; ")?.as_str())?;
    }
    Ok(())
}

/// Classes in a row, each with so many components of the one before, and the first with what is given.
fn nested(alloc: Global, first: &str, counts: &[usize], last: &str) -> Result<String, AllocError> {
    let mut text = String::new(alloc);
    text.push_str("block C0 ")?;
    text.push_str(first)?;
    text.push_str(" end C0; ")?;
    for (below, count) in counts.iter().enumerate() {
        let number = below as u64 + 1;
        text.push_str(format!(in alloc; "block C{number} ")?.as_str())?;
        let class = format!(in alloc; "C{below}")?;
        add_components(alloc, &mut text, class.as_str(), *count)?;
        if number == counts.len() as u64 {
            text.push_str(last)?;
        }
        text.push_str(format!(in alloc; " end C{number}; ")?.as_str())?;
    }
    Ok(text)
}

/// So many equations `x = 1`.
fn equations(alloc: Global, count: usize) -> Result<String, AllocError> {
    let mut text = String::new(alloc);
    text.push_str("Integer x; equation ")?;
    for _ in 0..count {
        text.push_str("x = 1; ")?;
    }
    Ok(text)
}

/// A variable whose start has twice so many tokens.
fn start(alloc: Global, count: usize) -> Result<String, AllocError> {
    let mut text = String::new(alloc);
    text.push_str("Integer x(start = -1")?;
    for _ in 1..count {
        text.push_str("+1")?;
    }
    text.push_str(");")?;
    Ok(text)
}

/// Whether the flat model of classes in a row, with more in the last, counts so much.
fn counts(
    rt: &impl Abort,
    alloc: Global,
    first: &str,
    below: &[usize],
    last: &str,
    want: Want,
) -> bool {
    let text = nested(alloc, first, below, last).ok().expect(rt, "memory");
    match (counted(rt, alloc, text.as_bytes()), want) {
        (Ok(found), Ok(wanted)) => found == wanted,
        (Err(found), Err(wanted)) => found.as_str() == wanted,
        _ => false,
    }
}

const ONES: [usize; 32] = [1; 32];

#[test]
fn levels_of_components(rt: HostRuntime) {
    let alloc = rt.alloc();
    // a variable at depth 32, and one at depth 33
    assert!(rt; counts(&rt, alloc, "Integer x;", &ONES[..31], "", Ok((1, 0))));
    assert!(rt; counts(&rt, alloc, "Integer x;", &ONES, "", Err("N11 at 1:875")));
    // a component without anything at depth 32
    assert!(rt; counts(&rt, alloc, "", &ONES, "", Ok((0, 0))));
}

#[test]
fn names_at_the_limit(rt: HostRuntime) {
    assert!(rt;
        counts(
            &rt,
            rt.alloc(),
            "Integer x;",
            &[256, 256],
            "",
            Ok((65_536, 0))
        )
    );
}

#[test]
fn names_past_the_limit(rt: HostRuntime) {
    let more = "parameter Integer k = 1; ";
    assert!(rt;
        counts(
            &rt,
            rt.alloc(),
            "Integer x;",
            &[256, 256],
            more,
            Err("N10 at 1:2247")
        )
    );
}

#[test]
fn equations_at_the_limit(rt: HostRuntime) {
    let body = equations(rt.alloc(), 256).ok().expect(&rt, "memory");
    assert!(rt;
        counts(
            &rt,
            rt.alloc(),
            body.as_str(),
            &[256],
            "",
            Ok((256, 65_536))
        )
    );
}

#[test]
fn equations_past_the_limit(rt: HostRuntime) {
    let body = equations(rt.alloc(), 256).ok().expect(&rt, "memory");
    let more = "Integer y = 1; ";
    assert!(rt;
        counts(
            &rt,
            rt.alloc(),
            body.as_str(),
            &[256],
            more,
            Err("N10 at 1:1837")
        )
    );
}

#[test]
fn tokens_at_the_limit(rt: HostRuntime) {
    let body = start(rt.alloc(), 2048).ok().expect(&rt, "memory");
    assert!(rt; counts(&rt, rt.alloc(), body.as_str(), &[32, 32], "", Ok((1024, 0))));
}

#[test]
fn tokens_past_the_limit(rt: HostRuntime) {
    let body = start(rt.alloc(), 2048).ok().expect(&rt, "memory");
    let more = "Integer y(start = 1); ";
    assert!(rt;
        counts(
            &rt,
            rt.alloc(),
            body.as_str(),
            &[32, 32],
            more,
            Err("N10 at 1:4405")
        )
    );
}

#[test]
fn empty_instances_at_once(rt: HostRuntime) {
    let twos = [2usize; 32];
    assert!(rt; counts(&rt, rt.alloc(), "", &twos, "Integer x; ", Ok((1, 0))));
}
