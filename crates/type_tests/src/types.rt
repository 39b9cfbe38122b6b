use crate::models::Arg::{ByZero, IntervalFirst, IntervalSecond, Name, Number, Truth};
use crate::models::{Arg, B, C, U, X, broken, call, chain};
use flat_model::RawExpr;
use flat_types::{TypeCode, TypeEnd, answer_law};
use sqlite_items::Boxed;
use std::alloc::{AllocError, Global};
use std::process::Abort;
use std::test::Fail;
use sync_values::{ChainOp, List, Rel, Value};

/// The name on the left, the function called on the right, its arguments, and the rule that the equation breaks.
static CALLS: [(u32, &[u8], &[Arg], Option<TypeCode>); 93] = [
    (X, b"previous", &[Name(X)], None),
    (X, b"previous", &[], Some(TypeCode::Y3)),
    (X, b"previous", &[Name(X), Name(X)], Some(TypeCode::Y3)),
    (X, b"previous", &[Number(1)], Some(TypeCode::Y2)),
    (X, b"previous", &[Name(C)], Some(TypeCode::Y1)),
    (X, b"previous", &[Name(U)], None),
    (B, b"previous", &[Name(B)], None),
    (B, b"previous", &[Name(X)], Some(TypeCode::Y1)),
    (X, b"hold", &[Name(X)], None),
    (X, b"hold", &[Name(U)], Some(TypeCode::Y2)),
    (X, b"noClock", &[Name(X)], None),
    (X, b"noClock", &[Name(U)], Some(TypeCode::Y2)),
    (C, b"noClock", &[Name(C)], Some(TypeCode::Y1)),
    (X, b"subSample", &[Name(X)], None),
    (X, b"subSample", &[Name(X), Number(0)], None),
    (X, b"subSample", &[Name(X), Number(2_147_483_647)], None),
    (
        X,
        b"subSample",
        &[Name(X), Number(2_147_483_648)],
        Some(TypeCode::Y4),
    ),
    (X, b"subSample", &[Name(X), Number(-1)], Some(TypeCode::Y4)),
    (X, b"subSample", &[Name(X), Name(X)], Some(TypeCode::Y4)),
    (X, b"subSample", &[Name(X), Truth], Some(TypeCode::Y4)),
    (X, b"subSample", &[Name(X), ByZero], Some(TypeCode::Y4)),
    (X, b"subSample", &[Number(1), Name(X)], Some(TypeCode::Y2)),
    (
        X,
        b"subSample",
        &[Name(X), Number(1), Number(1)],
        Some(TypeCode::Y3),
    ),
    (C, b"subSample", &[Name(C), Number(2)], None),
    (X, b"superSample", &[Name(U), Number(2)], Some(TypeCode::Y2)),
    (X, b"shiftSample", &[Name(X)], Some(TypeCode::Y3)),
    (X, b"shiftSample", &[Name(X), Number(0)], None),
    (
        X,
        b"shiftSample",
        &[Name(X), Number(1), Number(0)],
        Some(TypeCode::Y4),
    ),
    (X, b"backSample", &[Name(X), Number(1), Number(2)], None),
    (X, b"sample", &[Name(U)], None),
    (X, b"sample", &[Name(U), Name(C)], None),
    (X, b"sample", &[Name(U), Number(1)], Some(TypeCode::Y1)),
    (X, b"sample", &[Name(C)], Some(TypeCode::Y1)),
    (B, b"firstTick", &[], None),
    (B, b"firstTick", &[Name(X)], None),
    (B, b"firstTick", &[Number(1)], Some(TypeCode::Y2)),
    (C, b"Clock", &[], None),
    (C, b"Clock", &[Number(0)], None),
    (C, b"Clock", &[Number(1), Number(0)], Some(TypeCode::Y4)),
    (C, b"Clock", &[Truth], None),
    (C, b"Clock", &[Name(X)], Some(TypeCode::Y4)),
    (C, b"Clock", &[Truth, Number(2)], Some(TypeCode::Y4)),
    (X, b"div", &[Name(X), Number(0)], None),
    (X, b"div", &[Name(X)], Some(TypeCode::Y3)),
    (X, b"abs", &[Truth], Some(TypeCode::Y1)),
    (X, b"foo", &[Number(1)], Some(TypeCode::Y3)),
    (X, b"interval", &[], Some(TypeCode::Y5)),
    (X, b"interval", &[Name(X), Name(X)], Some(TypeCode::Y3)),
    (X, b"pre", &[Name(X)], Some(TypeCode::Y5)),
    (X, b"integer", &[IntervalFirst], None),
    (X, b"integer", &[IntervalSecond], None),
    (X, b"integer", &[Name(X)], Some(TypeCode::Y1)),
    (X, b"integer", &[Name(X), Name(X)], Some(TypeCode::Y3)),
    (X, b"hold", &[], Some(TypeCode::Y3)),
    (X, b"hold", &[Number(1)], Some(TypeCode::Y2)),
    (X, b"hold", &[Name(C)], Some(TypeCode::Y1)),
    (B, b"hold", &[Name(B)], None),
    (X, b"noClock", &[], Some(TypeCode::Y3)),
    (X, b"noClock", &[Number(1)], Some(TypeCode::Y2)),
    (B, b"subSample", &[Name(B)], None),
    (
        X,
        b"subSample",
        &[Number(1), Number(-1)],
        Some(TypeCode::Y2),
    ),
    (B, b"subSample", &[Name(X), Number(-1)], Some(TypeCode::Y4)),
    (X, b"superSample", &[], Some(TypeCode::Y3)),
    (X, b"superSample", &[Number(1)], Some(TypeCode::Y2)),
    (C, b"superSample", &[Name(C), Number(2)], None),
    (X, b"shiftSample", &[Name(U), Number(1)], Some(TypeCode::Y2)),
    (X, b"shiftSample", &[Truth, Number(1)], Some(TypeCode::Y2)),
    (X, b"backSample", &[Name(X)], Some(TypeCode::Y3)),
    (X, b"backSample", &[Name(U), Number(1)], Some(TypeCode::Y2)),
    (C, b"backSample", &[Name(C), Number(1), Number(2)], None),
    (X, b"sample", &[], Some(TypeCode::Y3)),
    (
        X,
        b"sample",
        &[Name(U), Name(C), Name(C)],
        Some(TypeCode::Y3),
    ),
    (B, b"sample", &[Name(B)], None),
    (B, b"firstTick", &[Name(U)], None),
    (B, b"firstTick", &[Name(C)], Some(TypeCode::Y1)),
    (B, b"firstTick", &[Name(X), Name(X)], Some(TypeCode::Y3)),
    (X, b"firstTick", &[], Some(TypeCode::Y1)),
    (
        C,
        b"Clock",
        &[Number(1), Number(2), Number(3)],
        Some(TypeCode::Y3),
    ),
    (C, b"Clock", &[Number(0), Number(0)], Some(TypeCode::Y4)),
    (X, b"div", &[Name(X), Truth], Some(TypeCode::Y1)),
    (X, b"mod", &[Name(X), Name(U)], None),
    (X, b"rem", &[Name(X), Name(C)], Some(TypeCode::Y1)),
    (X, b"abs", &[Name(X)], None),
    (X, b"abs", &[Name(X), Name(X)], Some(TypeCode::Y3)),
    (X, b"min", &[Name(X), Name(U)], None),
    (B, b"max", &[Name(X), Name(U)], Some(TypeCode::Y1)),
    (X, b"interval", &[Name(X)], Some(TypeCode::Y5)),
    (B, b"edge", &[Name(B)], Some(TypeCode::Y5)),
    (B, b"change", &[], Some(TypeCode::Y5)),
    (X, b"delay", &[Name(X), Number(1)], Some(TypeCode::Y5)),
    (X, b"noEvent", &[Name(X)], Some(TypeCode::Y5)),
    (X, b"smooth", &[Number(0), Name(X)], Some(TypeCode::Y5)),
    (X, b"integer", &[], Some(TypeCode::Y3)),
];

#[test]
fn calls_have_their_arguments(rt: HostRuntime) -> Result<(), Fail> {
    let alloc = rt.alloc();
    for row in &CALLS {
        let right = call(alloc, row.1, row.2)?;
        let found = broken(alloc, RawExpr::Name(row.0), right)?;
        assert_eq!(rt; found, row.3);
    }
    Ok(())
}

fn one() -> RawExpr {
    RawExpr::Const(Value::Int(1))
}

/// `1 op right`
fn from_one(alloc: Global, op: ChainOp, right: RawExpr) -> Result<RawExpr, AllocError> {
    chain(alloc, one(), op, right)
}

/// `1 < b`
fn below_truth(alloc: Global) -> Result<RawExpr, AllocError> {
    let left = Boxed::new(alloc, one())?;
    let right = Boxed::new(alloc, RawExpr::Name(B))?;
    Ok(RawExpr::Relation(Rel::Less, left, right))
}

/// `if b then 1 else b`
fn mixed_choice(alloc: Global) -> Result<RawExpr, AllocError> {
    let mut conditions = List::new(alloc);
    conditions.push(RawExpr::Name(B))?;
    let mut branches = List::new(alloc);
    branches.push(one())?;
    let other = Boxed::new(alloc, RawExpr::Name(B))?;
    Ok(RawExpr::If(conditions, branches, other))
}

/// Asserts the rule that an equation of a name breaks.
fn assert_broken(
    rt: &impl Abort,
    alloc: Global,
    name: u32,
    right: RawExpr,
    wanted: TypeCode,
) -> Result<(), TypeEnd> {
    let found = broken(alloc, RawExpr::Name(name), right)?;
    assert_eq!(rt; found, Some(wanted));
    Ok(())
}

#[test]
fn operators_have_their_types(rt: HostRuntime) -> Result<(), Fail> {
    let alloc = rt.alloc();
    let quotient = from_one(alloc, ChainOp::Over, one())?;
    assert_broken(&rt, alloc, X, quotient, TypeCode::Y5)?;
    let mixed = from_one(alloc, ChainOp::Plus, RawExpr::Name(B))?;
    assert_broken(&rt, alloc, X, mixed, TypeCode::Y1)?;
    assert_broken(&rt, alloc, X, RawExpr::Time, TypeCode::Y5)?;
    assert_broken(&rt, alloc, B, below_truth(alloc)?, TypeCode::Y1)?;
    assert_broken(&rt, alloc, X, mixed_choice(alloc)?, TypeCode::Y1)?;
    answer_law();
    Ok(())
}
