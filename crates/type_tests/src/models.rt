//! Models of a few names, which the tests type.
use flat_model::{FlatName, NameKind, RawEq, RawExpr, RawModel};
use flat_types::{TypeCode, TypeEnd, typed};
use std::alloc::{AllocError, Global};
use sync_values::{ChainOp, List, Text, Value};

/// An argument of a call: a number, the truth value true, a name, `div(1, 0)`, or an interval of a name or of x.
#[derive(Clone, Copy)]
pub enum Arg {
    Number(i64),
    Truth,
    Name(u32),
    ByZero,
    IntervalOf(u32),
    /// A product with an interval of x as its first factor, or as its second one.
    IntervalFirst,
    IntervalSecond,
}

use Arg::{ByZero, IntervalFirst, IntervalOf, IntervalSecond, Name, Number, Truth};

/// The names of all cases: the Integer x, the Integer input u, the Boolean b, the Clock c and the Boolean input v.
pub const X: u32 = 0;

pub const U: u32 = 1;

pub const B: u32 = 2;

pub const C: u32 = 3;

pub const V: u32 = 4;

fn name(
    alloc: Global,
    text: &[u8],
    kind: NameKind,
    input: bool,
    start: Value,
) -> Result<FlatName, AllocError> {
    Text::from_bytes(alloc, text).map(|text| FlatName {
        text,
        kind,
        input,
        start,
    })
}

/// The names of all cases.
pub fn names(alloc: Global) -> Result<List<FlatName>, AllocError> {
    let mut names = List::new(alloc);
    names.push(name(alloc, b"x", NameKind::Integer, false, Value::Int(0))?)?;
    names.push(name(alloc, b"u", NameKind::Integer, true, Value::Int(0))?)?;
    names.push(name(alloc, b"b", NameKind::Boolean, false, Value::Bool(false))?)?;
    names.push(name(alloc, b"c", NameKind::Clock, false, Value::Int(0))?)?;
    names.push(name(alloc, b"v", NameKind::Boolean, true, Value::Bool(false))?)?;
    Ok(names)
}

/// A chain of two parts.
pub fn chain(alloc: Global, a: RawExpr, op: ChainOp, b: RawExpr) -> Result<RawExpr, AllocError> {
    let mut parts = List::new(alloc);
    let mut ops = List::new(alloc);
    let first = parts.push(a);
    let second = parts.push(b);
    ops.push(op)?;
    first.and(second).map(|()| RawExpr::Chain(parts, ops))
}

/// A call of two numbers or of one name.
fn call_of(
    alloc: Global,
    function: &[u8],
    a: RawExpr,
    b: Option<RawExpr>,
) -> Result<RawExpr, AllocError> {
    let mut parts = List::new(alloc);
    let mut pushed = parts.push(a);
    if let Some(b) = b {
        pushed = pushed.and(parts.push(b));
    }
    let text = Text::from_bytes(alloc, function);
    pushed.and(text).map(|text| RawExpr::Call(text, parts))
}

pub fn argument(alloc: Global, arg: Arg) -> Result<RawExpr, AllocError> {
    match arg {
        Number(n) => Ok(RawExpr::Const(Value::Int(n))),
        Truth => Ok(RawExpr::Const(Value::Bool(true))),
        Name(x) => Ok(RawExpr::Name(x)),
        ByZero => {
            let zero = RawExpr::Const(Value::Int(0));
            call_of(alloc, b"div", RawExpr::Const(Value::Int(1)), Some(zero))
        }
        IntervalOf(x) => call_of(alloc, b"interval", RawExpr::Name(x), None),
        IntervalFirst => {
            let interval = call_of(alloc, b"interval", RawExpr::Name(X), None)?;
            chain(
                alloc,
                interval,
                ChainOp::Times,
                RawExpr::Const(Value::Int(2)),
            )
        }
        IntervalSecond => {
            let interval = call_of(alloc, b"interval", RawExpr::Name(X), None)?;
            chain(
                alloc,
                RawExpr::Const(Value::Int(2)),
                ChainOp::Times,
                interval,
            )
        }
    }
}

/// A call of a function by its name.
pub fn call(alloc: Global, function: &[u8], args: &[Arg]) -> Result<RawExpr, AllocError> {
    let mut parts = List::new(alloc);
    for arg in args {
        parts.push(argument(alloc, *arg)?)?;
    }
    Text::from_bytes(alloc, function).map(|text| RawExpr::Call(text, parts))
}

/// The rule that a model of one equation breaks; none where it has types.
pub fn broken(alloc: Global, left: RawExpr, right: RawExpr) -> Result<Option<TypeCode>, TypeEnd> {
    let mut equations = List::new(alloc);
    equations.push(RawEq {
        left,
        right,
        clause: None,
    })?;
    let raw = RawModel {
        names: names(alloc)?,
        equations,
        clauses: List::new(alloc),
    };
    match typed(alloc, &raw) {
        Ok(_) => Ok(None),
        Err(TypeEnd::Fault { code, .. }) => Ok(Some(code)),
        Err(TypeEnd::NoMemory) => Err(TypeEnd::NoMemory),
    }
}
