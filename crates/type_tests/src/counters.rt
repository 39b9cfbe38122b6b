//! Counters, factors, resolutions and the k of an interval.
use crate::models::Arg::{ByZero, IntervalOf, Name, Number, Truth};
use crate::models::{Arg, C, X, argument, broken, call, chain};
use flat_model::RawExpr;
use flat_types::{TypeCode, TypeEnd};
use std::alloc::{AllocError, Global};
use std::test::Fail;
use sync_values::{ChainOp, List, Text};

/// What stands for a counter, and whether it is one from 0, and from 1.
const COUNTERS: [(Arg, bool, bool); 8] = [
    (Number(0), true, false),
    (Number(1), true, true),
    (Number(2_147_483_647), true, true),
    (Number(2_147_483_648), false, false),
    (Number(-1), false, false),
    (Name(X), false, false),
    (Truth, false, false),
    (ByZero, false, false),
];

/// The name on the left, a function, its arguments before a counter, and whether that is one from 0.
static COUNTED: [(u32, &[u8], &[Arg], bool); 7] = [
    (X, b"subSample", &[Name(X)], true),
    (X, b"superSample", &[Name(X)], true),
    (X, b"shiftSample", &[Name(X)], true),
    (X, b"shiftSample", &[Name(X), Number(1)], false),
    (X, b"backSample", &[Name(X)], true),
    (X, b"backSample", &[Name(X), Number(1)], false),
    (C, b"Clock", &[Number(3)], false),
];

/// The first counter of a Clock before its resolution, and the only one, which is no Boolean.
static FIRST: [(&[Arg], Option<TypeCode>); 12] = [
    (&[Number(0), Number(2)], None),
    (&[Number(1), Number(2)], None),
    (&[Number(2_147_483_647), Number(2)], None),
    (&[Number(2_147_483_648), Number(2)], Some(TypeCode::Y4)),
    (&[Name(X), Number(2)], Some(TypeCode::Y4)),
    (&[ByZero, Number(2)], Some(TypeCode::Y4)),
    (&[Number(1)], None),
    (&[Number(2_147_483_647)], None),
    (&[Number(2_147_483_648)], Some(TypeCode::Y4)),
    (&[Number(-1)], Some(TypeCode::Y4)),
    (&[ByZero], Some(TypeCode::Y4)),
    (&[Name(C)], Some(TypeCode::Y4)),
];

/// The two parts of the argument of `integer`, the operator between them, and the rule that the equation breaks.
const PRODUCTS: [(Arg, ChainOp, Arg, Option<TypeCode>); 11] = [
    (IntervalOf(X), ChainOp::Times, Number(2), None),
    (Number(2), ChainOp::Times, IntervalOf(X), None),
    (IntervalOf(X), ChainOp::Plus, Number(2), Some(TypeCode::Y5)),
    (Number(2), ChainOp::Minus, IntervalOf(X), Some(TypeCode::Y5)),
    (IntervalOf(X), ChainOp::Over, Number(2), Some(TypeCode::Y5)),
    // The first factor is the interval, and the second one stands outside the form.
    (
        IntervalOf(X),
        ChainOp::Times,
        IntervalOf(X),
        Some(TypeCode::Y5),
    ),
    (IntervalOf(C), ChainOp::Times, Number(2), Some(TypeCode::Y1)),
    (Number(2), ChainOp::Times, IntervalOf(C), Some(TypeCode::Y1)),
    (Number(2), ChainOp::Times, Number(3), Some(TypeCode::Y1)),
    (Number(2), ChainOp::Times, Truth, Some(TypeCode::Y1)),
    // The name of the interval is told before the counter.
    (IntervalOf(C), ChainOp::Times, Number(0), Some(TypeCode::Y1)),
];

/// `integer` of a chain of two parts.
fn integer_of(alloc: Global, a: Arg, op: ChainOp, b: Arg) -> Result<RawExpr, AllocError> {
    let a = argument(alloc, a);
    let b = argument(alloc, b);
    let product = chain(alloc, a?, op, b?)?;
    let mut parts = List::new(alloc);
    parts.push(product)?;
    let text = Text::from_bytes(alloc, b"integer")?;
    Ok(RawExpr::Call(text, parts))
}

fn wanted(taken: bool) -> Option<TypeCode> {
    if taken { None } else { Some(TypeCode::Y4) }
}

/// The arguments of a call: some, and a counter behind them.
fn with_counter(alloc: Global, before: &[Arg], counter: Arg) -> Result<List<Arg>, AllocError> {
    let mut args = List::new(alloc);
    for arg in before {
        args.push(*arg)?;
    }
    args.push(counter)?;
    Ok(args)
}

/// The rule that an equation of a name and a call with a counter breaks.
fn broken_by(
    alloc: Global,
    name: u32,
    function: &[u8],
    before: &[Arg],
    counter: Arg,
) -> Result<Option<TypeCode>, TypeEnd> {
    let args = with_counter(alloc, before, counter)?;
    let right = call(alloc, function, args.as_slice())?;
    broken(alloc, RawExpr::Name(name), right)
}

#[test]
fn counters_have_their_ranges(rt: HostRuntime) -> Result<(), Fail> {
    let alloc = rt.alloc();
    for row in &COUNTED {
        for (counter, zero, one) in &COUNTERS {
            let found = broken_by(alloc, row.0, row.1, row.2, *counter)?;
            assert_eq!(rt; found, wanted(if row.3 { *zero } else { *one }));
        }
    }
    Ok(())
}

#[test]
fn first_counters_have_their_ranges(rt: HostRuntime) -> Result<(), Fail> {
    let alloc = rt.alloc();
    for row in &FIRST {
        let right = call(alloc, b"Clock", row.0)?;
        assert_eq!(rt; broken(alloc, RawExpr::Name(C), right)?, row.1);
    }
    Ok(())
}

/// The rule that an equation of x and `integer` of a chain breaks.
fn broken_integer(alloc: Global, a: Arg, op: ChainOp, b: Arg) -> Result<Option<TypeCode>, TypeEnd> {
    let right = integer_of(alloc, a, op, b)?;
    broken(alloc, RawExpr::Name(X), right)
}

#[test]
fn an_interval_stands_in_its_form(rt: HostRuntime) -> Result<(), Fail> {
    let alloc = rt.alloc();
    for (k, _, taken) in &COUNTERS {
        let first = broken_integer(alloc, IntervalOf(X), ChainOp::Times, *k)?;
        assert_eq!(rt; first, wanted(*taken));
        let second = broken_integer(alloc, *k, ChainOp::Times, IntervalOf(X))?;
        assert_eq!(rt; second, wanted(*taken));
    }
    for (a, op, b, code) in &PRODUCTS {
        assert_eq!(rt; broken_integer(alloc, *a, *op, *b)?, *code);
    }
    Ok(())
}
