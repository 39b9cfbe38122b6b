ghost use Rattle.std.specs.Prelude.{◌≡◌, ◌≢◌, ◌*◌, Some, IsSome, true};
ghost use Rattle.rational_time.specs.Fraction.{IsFloor};
ghost use Rattle.sync_values.specs.Arithmetic.{fitted};
ghost use Rattle.flat_model.specs.Operators.{Absent, chain, chosen, settled};
ghost use Rattle.flat_model.specs.Functions.{called};
ghost use Rattle.flat_model.specs.Meaning.{value_of, answers, whole_of};
ghost use Rattle.flat_model.specs.Evaluation.{answer_of, seen_from, has_enough};
ghost use Rattle.flat_model.specs.Samples.{may_stand, all_may_stand, samples_are_plain, all_samples_are_plain};
ghost use Rattle.flat_model.specs.Intervals.{IsMeasurable, length_of};

use crate::clock::Elapsed;
use crate::expression::{Expr, Fun};
use crate::lookup::Lookup;
use crate::operate::{apply, call_with_one, call_with_two, compare, invert, negate};
use rational_time::{floor_between, floor_times};
use sync_values::{ChainOp, Fail, Value};

/// Where names are seen from: the moment itself, or the moment before, as in the argument of `sample`.
#[derive(Clone, Copy)]
pub enum Vantage {
    Now,
    Left,
}

/// The value of a name.
fn now<V: Lookup>(values: &V, vantage: Vantage, name: u32) -> Value
    requires { IsSome ((seen_from vantage (V.views values.now) 0).now name) }
    ensures { (seen_from vantage (V.views values.now) 0).now name ≡ Some result }
{
    match vantage {
        Vantage::Now => values.now(name).unwrap(),
        Vantage::Left => values.left_now(name).unwrap(),
    }
}

/// The last value of a clocked name.
fn last<V: Lookup>(values: &V, vantage: Vantage, name: u32) -> Value
    requires { IsSome ((seen_from vantage (V.views values.now) 0).last name) }
    ensures { (seen_from vantage (V.views values.now) 0).last name ≡ Some result }
{
    match vantage {
        Vantage::Now => values.last(name),
        Vantage::Left => values.left_last(name),
    }
}

/// The whole part of an interval times k.
fn whole_times(interval: Elapsed, k: u32) -> u128
    requires { IsMeasurable interval }
    ensures { IsFloor ((length_of interval).num * k) (length_of interval).den result }
{
    match interval {
        Elapsed::Period(period) => floor_times(period, k),
        Elapsed::Between(from, to) => floor_between(from, to, k),
    }
}

/// The whole part of the interval of the equation's clock times k.
#[tactic(auto, using(crate::proofs::Wholes::floor_same))]
fn interval_times<V: Lookup>(values: &V, k: u32) -> Result<Value, Fail>
    requires { IsMeasurable (V.elapsed values.now) }
    ensures { answer_of result ≡ settled (fitted (whole_of (V.views values.now 0).interval k)) }
{
    match i64::try_from(whole_times(values.interval(), k)) {
        Ok(number) => Ok(Value::Int(number)),
        Err(_) => Err(Fail::TooLarge),
    }
}

/// Whether the value of a chain so far is also its value with the next part.
pub(crate) fn is_enough(op: ChainOp, total: Value) -> bool
    ensures { result ≡ has_enough op total }
{
    match (op, total) {
        (ChainOp::And, Value::Bool(holds)) => !holds,
        (ChainOp::Or, Value::Bool(holds)) => holds,
        _ => false,
    }
}

/// The value of a chain, grouped to the left, of which only what is needed is evaluated.
#[cycle(value)]
fn chain_value<V: Lookup>(
    parts: &[Expr],
    ops: &[ChainOp],
    values: &V,
    vantage: Vantage,
) -> Result<Value, Fail>
    requires present { chain ops.now (answers parts.now (seen_from vantage (V.views values.now))) ≢ Absent }
    requires standing { all_may_stand vantage parts.now ≡ true }
    requires interval { IsMeasurable (V.elapsed values.now) }
    ensures { answer_of result ≡ chain ops.now (answers parts.now (seen_from vantage (V.views values.now))) }
{
    let Some((first, rest)) = parts.split_first() else {
        unreachable!();
    };
    let mut total = value_seen(first, values, vantage)?;
    for (i, part) in rest.iter().enumerate() {
        let Some(op) = ops.get(i) else {
            break;
        };
        if !is_enough(*op, total) {
            total = apply(*op, total, value_seen(part, values, vantage)?)?;
        }
    }
    Ok(total)
}

/// The value of a call, whose arguments are evaluated in their order.
#[cycle(value)]
fn call_value<V: Lookup>(
    function: Fun,
    parts: &[Expr],
    values: &V,
    vantage: Vantage,
) -> Result<Value, Fail>
    requires present { called function (answers parts.now (seen_from vantage (V.views values.now))) ≢ Absent }
    requires standing { all_may_stand vantage parts.now ≡ true }
    requires interval { IsMeasurable (V.elapsed values.now) }
    ensures { answer_of result ≡ called function (answers parts.now (seen_from vantage (V.views values.now))) }
{
    let Some((first, rest)) = parts.split_first() else {
        unreachable!();
    };
    let first = value_seen(first, values, vantage)?;
    let Some(second) = rest.first() else {
        return call_with_one(function, first);
    };
    let second = value_seen(second, values, vantage)?;
    call_with_two(function, first, second)
}

/// The value of the branch of the first condition that is true, or else of the last branch.
#[cycle(value)]
fn choice_value<V: Lookup>(
    conditions: &[Expr],
    branches: &[Expr],
    other: &Expr,
    values: &V,
    vantage: Vantage,
) -> Result<Value, Fail>
    requires present { chosen
        (answers conditions.now (seen_from vantage (V.views values.now)))
        (answers branches.now (seen_from vantage (V.views values.now)))
        (value_of other.now (seen_from vantage (V.views values.now))) ≢ Absent }
    requires conditions { all_may_stand vantage conditions.now ≡ true }
    requires branches { all_may_stand vantage branches.now ≡ true }
    requires other { may_stand other.now vantage ≡ true }
    requires interval { IsMeasurable (V.elapsed values.now) }
    ensures { answer_of result ≡ chosen
        (answers conditions.now (seen_from vantage (V.views values.now)))
        (answers branches.now (seen_from vantage (V.views values.now)))
        (value_of other.now (seen_from vantage (V.views values.now))) }
{
    for (i, condition) in conditions.iter().enumerate() {
        let Value::Bool(holds) = value_seen(condition, values, vantage)? else {
            unreachable!();
        };
        if holds {
            return value_seen(&branches[i], values, vantage);
        }
    }
    value_seen(other, values, vantage)
}

/// The value of an expression from a vantage.
#[cycle(value)]
#[tactic(auto, using(crate::proofs::Values::values, crate::proofs::Standings::standings))]
fn value_seen<V: Lookup>(expr: &Expr, values: &V, vantage: Vantage) -> Result<Value, Fail>
    requires present { value_of expr.now (seen_from vantage (V.views values.now)) ≢ Absent }
    requires standing { may_stand expr.now vantage ≡ true }
    requires interval { IsMeasurable (V.elapsed values.now) }
    ensures { answer_of result ≡ value_of expr.now (seen_from vantage (V.views values.now)) }
{
    match expr {
        Expr::Const(value) => Ok(*value),
        Expr::Read(name) => Ok(now(values, vantage, *name)),
        Expr::Chain(parts, ops) => chain_value(parts.as_slice(), ops.as_slice(), values, vantage),
        Expr::Relation(rel, left, right) => {
            let left = value_seen(left.get(), values, vantage)?;
            let right = value_seen(right.get(), values, vantage)?;
            Ok(compare(*rel, left, right))
        }
        Expr::Neg(part) => negate(value_seen(part.get(), values, vantage)),
        Expr::Not(part) => invert(value_seen(part.get(), values, vantage)),
        Expr::If(conditions, branches, other) => choice_value(
            conditions.as_slice(),
            branches.as_slice(),
            other.get(),
            values,
            vantage,
        ),
        Expr::Apply(function, parts) => call_value(*function, parts.as_slice(), values, vantage),
        Expr::Previous(name) => Ok(values.previous(*name)),
        Expr::FirstTick(_) => Ok(Value::Bool(values.first())),
        Expr::IntervalTimes(_, k) => interval_times(values, *k),
        Expr::Hold(name) => Ok(last(values, vantage, *name)),
        Expr::Convert(_, name) => Ok(last(values, vantage, *name)),
        Expr::Sample(part, _) => value_seen(part.get(), values, Vantage::Left),
    }
}

/// The value of an expression at a moment. It is evaluated left to right, and only what is needed: a chain of `and`
/// ends at the first part that is false, one of `or` at the first that is true, and of the branches of an `if` the
/// chosen one alone is evaluated. It takes no memory.
///
/// # Errors
///
/// The leftmost failure of a part that is evaluated: `Divide` where a divisor is 0, `TooLarge` where a result does
/// not fit 64 bits.
///
/// Source: MLS 3.6, chapter 3, "Operators and Expressions", and chapter 16, "Clocks and Clocked Variables", in this
/// project's profile.
pub fn eval<V: Lookup>(expr: &Expr, values: &V) -> Result<Value, Fail>
    requires present { value_of expr.now (V.views values.now) ≢ Absent }
    requires samples { samples_are_plain expr.now ≡ true }
    requires interval { IsMeasurable (V.elapsed values.now) }
    ensures { answer_of result ≡ value_of expr.now (V.views values.now) }
{
    value_seen(expr, values, Vantage::Now)
}

/// The value of a chain of these parts at a moment, as [`eval`] gives it.
///
/// # Errors
///
/// The leftmost failure of a part that is evaluated.
pub fn eval_chain<V: Lookup>(parts: &[Expr], ops: &[ChainOp], values: &V) -> Result<Value, Fail>
    requires present { chain ops.now (answers parts.now (V.views values.now)) ≢ Absent }
    requires samples { all_samples_are_plain parts.now ≡ true }
    requires interval { IsMeasurable (V.elapsed values.now) }
    ensures { answer_of result ≡ chain ops.now (answers parts.now (V.views values.now)) }
{
    chain_value(parts, ops, values, Vantage::Now)
}
