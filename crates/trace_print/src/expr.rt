//! The texts of expressions, and of expressions for clocks.
ghost use Rattle.std.specs.Prelude.{◌≡◌, ◌++◌, ◌∷◌, [], OnOk, codes, map, min};
ghost use Rattle.trace_print.specs.private.Openings.{openings};
ghost use Rattle.trace_print.specs.Printed.{expr_text, clock_text, call_text, chain_text, choices, fun_text, separated};

use crate::put::{
    put, put_conversion, put_interval, put_name, put_operator, put_rational, put_value,
};
use crate::words::{fun_text, op_text, rel_text};
use flat_model::{ClockExpr, Expr, FlatName, Fun};
use std::alloc::AllocError;
use sync_values::ChainOp;

/// Adds an expression between what stands before it and a closing bracket.
#[cycle(text)]
fn put_around(
    out: &mut Vec<u8>,
    names: &[FlatName],
    before: &[u8],
    part: &Expr,
) -> Result<(), AllocError>
    ensures { OnOk result (out.new.items ≡ out.old.items ++ (before.now ++ expr_text names.now part.now ++ codes ")")) }
{
    put(out, before)?;
    put_expr(out, names, part)?;
    put(out, b")")
}

/// Adds expressions with a comma and a space between each and the next.
#[cycle(text)]
fn put_list(out: &mut Vec<u8>, names: &[FlatName], parts: &[Expr]) -> Result<(), AllocError>
    ensures { OnOk result (out.new.items ≡ out.old.items ++ separated (map (expr_text names.now) parts.now)) }
{
    let Some((first, rest)) = parts.split_first() else {
        return Ok(());
    };
    put_expr(out, names, first)?;
    for part in rest {
        put(out, b", ")?;
        put_expr(out, names, part)?;
    }
    Ok(())
}

/// The lesser of two numbers.
fn lesser(a: usize, b: usize) -> usize
    ensures { result ≡ min a b }
{
    if a < b { a } else { b }
}

/// Adds so many opening brackets.
fn put_openings(out: &mut Vec<u8>, count: usize) -> Result<(), AllocError>
    ensures { OnOk result (out.new.items ≡ out.old.items ++ openings count) }
{
    for _turn in 0..count {
        put(out, b"(")?;
    }
    Ok(())
}

/// Adds a chain, grouped to the left.
#[cycle(text)]
fn put_chain(
    out: &mut Vec<u8>,
    names: &[FlatName],
    parts: &[Expr],
    ops: &[ChainOp],
) -> Result<(), AllocError>
    ensures { OnOk result (out.new.items ≡ out.old.items ++ chain_text ops.now (map (expr_text names.now) parts.now)) }
{
    let Some((first, rest)) = parts.split_first() else {
        return Ok(());
    };
    put_openings(out, lesser(ops.len(), rest.len()))?;
    put_expr(out, names, first)?;
    for (i, part) in rest.iter().enumerate() {
        let Some(op) = ops.get(i) else {
            return Ok(());
        };
        put(out, op_text(*op))?;
        put_around(out, names, b"", part)?;
    }
    Ok(())
}

/// Adds the call of a function.
#[cycle(text)]
fn put_call(
    out: &mut Vec<u8>,
    names: &[FlatName],
    function: Fun,
    parts: &[Expr],
) -> Result<(), AllocError>
    ensures { OnOk result (out.new.items ≡ out.old.items ++ call_text (fun_text function) (map (expr_text names.now) parts.now)) }
{
    put(out, fun_text(function))?;
    put(out, b"(")?;
    put_list(out, names, parts)?;
    put(out, b")")
}

/// Adds the clock of a `sample`, its second argument.
#[cycle(text)]
fn put_second(out: &mut Vec<u8>, names: &[FlatName], clock: &ClockExpr) -> Result<(), AllocError>
    ensures { OnOk result (out.new.items ≡ out.old.items ++ (codes ", " ++ clock_text names.now clock.now ++ codes ")")) }
{
    put(out, b", ")?;
    put_clock(out, names, clock)?;
    put(out, b")")
}

/// Adds an expression.
#[cycle(text)]
#[tactic(auto, using(crate::proofs::Texts::texts))]
pub(crate) fn put_expr(out: &mut Vec<u8>, names: &[FlatName], expr: &Expr) -> Result<(), AllocError>
    ensures { OnOk result (out.new.items ≡ out.old.items ++ expr_text names.now expr.now) }
{
    match expr {
        Expr::Const(value) => put_value(out, *value),
        Expr::Read(x) => put_name(out, names, *x),
        Expr::Chain(parts, ops) => put_chain(out, names, parts.as_slice(), ops.as_slice()),
        Expr::Relation(rel, left, right) => {
            put(out, b"(")?;
            put_expr(out, names, left.get())?;
            put(out, rel_text(*rel))?;
            put_around(out, names, b"", right.get())
        }
        Expr::Neg(part) => put_around(out, names, b"(-", part.get()),
        Expr::Not(part) => put_around(out, names, b"(not ", part.get()),
        Expr::If(conditions, branches, other) => {
            let mut word = b"(if ".as_slice();
            for (i, condition) in conditions.as_slice().iter().enumerate() {
                let Some(branch) = branches.as_slice().get(i) else {
                    break;
                };
                put(out, word)?;
                put_expr(out, names, condition)?;
                put(out, b" then ")?;
                put_expr(out, names, branch)?;
                word = b" elseif ";
            }
            put_around(out, names, b" else ", other.get())
        }
        Expr::Apply(function, parts) => put_call(out, names, *function, parts.as_slice()),
        Expr::Previous(x) => put_operator(out, names, b"previous", Some(*x)),
        Expr::FirstTick(x) => put_operator(out, names, b"firstTick", *x),
        Expr::IntervalTimes(x, k) => put_interval(out, names, *x, *k),
        Expr::Hold(x) => put_operator(out, names, b"hold", Some(*x)),
        Expr::Convert(by, x) => put_conversion(out, names, *by, *x),
        Expr::Sample(part, clock) => match clock {
            None => put_around(out, names, b"sample(", part.get()),
            Some(clock) => {
                put(out, b"sample(")?;
                put_expr(out, names, part.get())?;
                put_second(out, names, clock)
            }
        },
    }
}

/// Adds an expression for a clock.
#[cycle(text)]
#[tactic(auto, using(crate::proofs::Texts::clocks))]
pub(crate) fn put_clock(
    out: &mut Vec<u8>,
    names: &[FlatName],
    clock: &ClockExpr,
) -> Result<(), AllocError>
    ensures { OnOk result (out.new.items ≡ out.old.items ++ clock_text names.now clock.now) }
{
    match clock {
        ClockExpr::Name(x) => put_name(out, names, *x),
        ClockExpr::Inferred => put(out, b"Clock()"),
        ClockExpr::Rational(counter, resolution) => put_rational(out, *counter, *resolution),
        ClockExpr::Event(condition) => put_around(out, names, b"Clock(", condition.get()),
        ClockExpr::Convert(by, x) => put_conversion(out, names, *by, *x),
    }
}
