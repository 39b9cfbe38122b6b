use std::alloc::Global;
use std::process::Abort;
use sync_values::Fail::{Divide, TooLarge};
use sync_values::{
    ChainOp, Fail, List, Rel, Text, Value, abs, add, div, greatest, least, modulo, mul, neg,
    relate, rem, sub,
};

/// Each function of one or two Integers.
#[derive(Clone, Copy)]
enum Function {
    Add,
    Sub,
    Mul,
    Neg,
    Abs,
    Least,
    Greatest,
    Div,
    Rem,
    Modulo,
}

fn called(function: Function, a: i64, b: i64) -> Result<i64, Fail> {
    match function {
        Function::Add => add(a, b),
        Function::Sub => sub(a, b),
        Function::Mul => mul(a, b),
        Function::Neg => neg(a),
        Function::Abs => abs(a),
        Function::Least => Ok(least(a, b)),
        Function::Greatest => Ok(greatest(a, b)),
        Function::Div => div(a, b),
        Function::Rem => rem(a, b),
        Function::Modulo => modulo(a, b),
    }
}

const CALLS: [(Function, i64, i64, Result<i64, Fail>); 36] = [
    (Function::Add, i64::MAX, -1, Ok(i64::MAX - 1)),
    (Function::Add, i64::MAX, 1, Err(TooLarge)),
    (Function::Sub, i64::MIN, -1, Ok(-i64::MAX)),
    (Function::Sub, 0, i64::MIN, Err(TooLarge)),
    (Function::Mul, -4, 5, Ok(-20)),
    (Function::Mul, i64::MIN, -1, Err(TooLarge)),
    (Function::Neg, i64::MAX, 0, Ok(-i64::MAX)),
    (Function::Neg, i64::MIN, 0, Err(TooLarge)),
    (Function::Abs, -7, 0, Ok(7)),
    (Function::Abs, i64::MIN, 0, Err(TooLarge)),
    (Function::Least, -3, 2, Ok(-3)),
    (Function::Greatest, -3, 2, Ok(2)),
    (Function::Div, 7, 2, Ok(3)),
    (Function::Rem, 7, 2, Ok(1)),
    (Function::Modulo, 7, 2, Ok(1)),
    (Function::Div, -7, 2, Ok(-3)),
    (Function::Rem, -7, 2, Ok(-1)),
    (Function::Modulo, -7, 2, Ok(1)),
    (Function::Div, 7, -2, Ok(-3)),
    (Function::Rem, 7, -2, Ok(1)),
    (Function::Modulo, 7, -2, Ok(-1)),
    (Function::Div, -7, -2, Ok(3)),
    (Function::Rem, -7, -2, Ok(-1)),
    (Function::Modulo, -7, -2, Ok(-1)),
    (Function::Div, 6, -3, Ok(-2)),
    (Function::Rem, 6, -3, Ok(0)),
    (Function::Modulo, 6, -3, Ok(0)),
    (Function::Div, 5, 0, Err(Divide)),
    (Function::Rem, 5, 0, Err(Divide)),
    (Function::Modulo, 5, 0, Err(Divide)),
    (Function::Div, i64::MIN, -1, Err(TooLarge)),
    (Function::Rem, i64::MIN, -1, Ok(0)),
    (Function::Modulo, i64::MIN, -1, Ok(0)),
    (Function::Div, i64::MIN, 3, Ok(-3074457345618258602)),
    (Function::Rem, i64::MIN, 3, Ok(-2)),
    (Function::Modulo, i64::MIN, 3, Ok(1)),
];

#[test]
fn arithmetic(rt: HostRuntime) {
    for row in &CALLS {
        let found = called(row.0, row.1, row.2);
        assert!(rt; found == row.3, "{found:?} of {} and {}", row.1, row.2);
    }
}

/// Each relation at a lesser, an equal and a greater left side.
const RELATIONS: [(Rel, bool, bool, bool); 6] = [
    (Rel::Less, true, false, false),
    (Rel::LessEq, true, true, false),
    (Rel::Greater, false, false, true),
    (Rel::GreaterEq, false, true, true),
    (Rel::Equal, false, true, false),
    (Rel::Unequal, true, false, true),
];

#[test]
fn relations(rt: HostRuntime) {
    for row in &RELATIONS {
        assert!(rt; relate(row.0, Value::Int(-1), Value::Int(2)) == row.1);
        assert!(rt; relate(row.0, Value::Int(2), Value::Int(2)) == row.2);
        assert!(rt; relate(row.0, Value::Bool(true), Value::Bool(false)) == row.3);
    }
}

#[test]
fn empty_lists(rt: HostRuntime) {
    let list: List<u8> = List::new(rt.alloc());
    let room: List<u8> = List::with_capacity(rt.alloc(), 2).expect(&rt, "memory");
    assert!(rt; list.is_empty() && room.is_empty());
}

fn plus_and_minus(rt: &impl Abort, alloc: Global) -> List<ChainOp> {
    let mut list = List::new(alloc);
    list.push(ChainOp::Plus).expect(rt, "memory");
    list.push(ChainOp::Minus).expect(rt, "memory");
    list
}

fn is_plus_and_minus(list: &List<ChainOp>) -> bool {
    list.len() == 2 && matches!(list.get(1), Some(ChainOp::Minus))
}

#[test]
fn lists(rt: HostRuntime) {
    let mut list = plus_and_minus(&rt, rt.alloc());
    assert!(rt; is_plus_and_minus(&list));
    assert!(rt; list.pop() == Some(ChainOp::Minus));
    let list = List::from_vec(list.into_vec());
    assert!(rt; matches!(list.as_slice(), [ChainOp::Plus]));
}

#[test]
fn texts(rt: HostRuntime) {
    let text = Text::from_bytes(rt.alloc(), b"a.v").expect(&rt, "memory");
    assert!(rt; text.len() == 3 && text.as_bytes() == b"a.v".as_slice());
}
