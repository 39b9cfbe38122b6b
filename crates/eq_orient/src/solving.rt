//! Equations solved for a name.
ghost use Rattle.std.specs.Prelude.{◌≡◌, ◌+◌, ◌++◌, ◌∷◌, true, All, length, map};
ghost use Rattle.std.specs.List.{list_all, list_any};
ghost use Rattle.flat_model.specs.Meaning.{answers, seen_by, value_of};
ghost use Rattle.flat_model.specs.Ways.{parts_beside};
ghost use Rattle.eq_orient.specs.Spine.{IsSpineOf};
ghost use Rattle.flat_model.specs.Samples.{samples_are_plain, all_samples_are_plain};
ghost use Rattle.flat_model.specs.Intervals.{IsMeasurable};
ghost use Rattle.flat_model.specs.Occurrences as spec;
ghost use Rattle.flat_model.specs.Operators.{Is, joined, chain, chained, negated, inverted};
ghost use Rattle.sync_values.specs.declared.value.Value.TheVariants as value;
ghost use Rattle.eq_orient.specs.Solving.{Fits, ArePresent, AreWellMade, Solves};
ghost use Rattle.eq_orient.specs.private.Undoing.{whole_of, HasValue, UndoneBy, Undoes, answers_by, AreValues, Checks, ChecksAll, front_of, IsOnWay, beside};

use crate::kinds::Spine;
use crate::standing::reached_in;
use flat_model::{Equation, Expr, Lookup, eval, eval_chain};
use sync_values::{ChainOp, Fail, Value, add, neg, sub};

/// The number whose sign was changed.
fn before_neg(target: Value) -> Result<Value, Fail>
    requires { Fits target }
    ensures { UndoneBy negated target result }
{
    match target {
        Value::Int(number) => match neg(number) {
            Ok(number) => Ok(Value::Int(number)),
            Err(kind) => Err(kind),
        },
        Value::Bool(_) => Err(Fail::TooLarge),
    }
}

/// The truth value that was inverted.
fn before_not(target: Value) -> Result<Value, Fail>
    requires { Fits target }
    ensures { UndoneBy inverted target result }
{
    match target {
        Value::Bool(truth) => Ok(Value::Bool(!truth)),
        Value::Int(_) => Err(Fail::TooLarge),
    }
}

/// A number as a value, where it has come out.
fn whole(number: Result<i64, Fail>) -> Result<Value, Fail>
    ensures { whole_of number result }
{
    match number {
        Ok(number) => Ok(Value::Int(number)),
        Err(kind) => Err(kind),
    }
}

/// The number to which another was added, or from which it was taken.
fn before_right(op: ChainOp, right: i64, target: i64) -> Result<Value, Fail>
    requires sum { spec.is_sum op ≡ true }
    requires target { Fits (value.Int target) }
    ensures { UndoneBy (λ a. joined op a (Is (value.Int right))) (value.Int target) result }
{
    match op {
        ChainOp::Plus => whole(sub(target, right)),
        ChainOp::Minus => whole(add(target, right)),
        _ => unreachable!(),
    }
}

/// The number that was added to another, or taken from it.
fn before_left(op: ChainOp, left: i64, target: i64) -> Result<Value, Fail>
    requires sum { spec.is_sum op ≡ true }
    requires target { Fits (value.Int target) }
    ensures { UndoneBy (λ a. joined op (Is (value.Int left)) a) (value.Int target) result }
{
    match op {
        ChainOp::Plus => whole(sub(target, left)),
        ChainOp::Minus => whole(sub(left, target)),
        _ => unreachable!(),
    }
}

/// What stands before a part of a chain with this value.
fn before_part(op: ChainOp, right: Value, target: Value) -> Result<Value, Fail>
    requires sum { spec.is_sum op ≡ true }
    requires target { Fits target }
    ensures { UndoneBy (λ a. joined op a (Is right)) target result }
{
    match (right, target) {
        (Value::Int(right), Value::Int(target)) => before_right(op, right, target),
        _ => Err(Fail::TooLarge),
    }
}

/// What stands before the last parts of a chain.
fn before_parts<V: Lookup>(
    ops: &[ChainOp],
    parts: &[Expr],
    target: Value,
    values: &V,
) -> Result<Value, Fail>
    requires sums { list_all spec.is_sum ops.now ≡ true }
    requires long { length parts.now ≡ length ops.now }
    requires target { Fits target }
    requires values { All (HasValue (V.views values.now)) parts.now }
    requires plain { All (λ part. samples_are_plain part ≡ true) parts.now }
    requires interval { IsMeasurable (V.elapsed values.now) }
    ensures { UndoneBy (λ a. chained a ops.now (answers parts.now (V.views values.now))) target result }
{
    let mut total = target;
    let mut i = ops.len();
    while i > 0 {
        i -= 1;
        let Ok(right) = eval(&parts[i], values) else {
            unreachable!();
        };
        match before_part(ops[i], right, total) {
            Ok(before) => {
                total = before;
            }
            Err(kind) => return Err(kind),
        }
    }
    Ok(total)
}

/// What follows another part of a chain to give this value.
fn before_front(op: ChainOp, left: Value, target: Value) -> Result<Value, Fail>
    requires sum { spec.is_sum op ≡ true }
    requires target { Fits target }
    ensures { UndoneBy (λ a. joined op (Is left) a) target result }
{
    match (left, target) {
        (Value::Int(left), Value::Int(target)) => before_left(op, left, target),
        _ => Err(Fail::TooLarge),
    }
}

/// The value of a part of a chain, by the parts in front of it and those behind.
fn before_chain<V: Lookup>(
    front: &[Expr],
    ops: &[ChainOp],
    back: &[Expr],
    target: Value,
    values: &V,
) -> Result<Value, Fail>
    requires sums { list_all spec.is_sum ops.now ≡ true }
    requires long { length ops.now ≡ length front.now + length back.now }
    requires target { Fits target }
    requires front { AreValues (front_of ops.now (answers front.now (V.views values.now))) }
    requires back { AreValues (answers back.now (V.views values.now)) }
    requires plain_front { all_samples_are_plain front.now ≡ true }
    requires plain_back { all_samples_are_plain back.now ≡ true }
    requires interval { IsMeasurable (V.elapsed values.now) }
    ensures { UndoneBy (λ a. chain ops.now (answers front.now (V.views values.now) ++ a ∷ answers back.now (V.views values.now))) target result }
{
    let before = match before_parts(&ops[front.len()..], back, target, values) {
        Ok(before) => before,
        Err(kind) => return Err(kind),
    };
    if front.is_empty() {
        return Ok(before);
    }
    let Ok(left) = eval_chain(front, ops, values) else {
        unreachable!();
    };
    before_front(ops[front.len() - 1], left, before)
}

/// The part of a chain in which a name is reached, with those in front of it and those behind.
///
/// Source: this project's own.
pub fn around(parts: &[Expr], name: u32) -> (&[Expr], &Expr, &[Expr])
    requires { list_any (λ part. part) (map (spec.is_reached name) parts.now) ≡ true }
    ensures split { parts.now ≡ result.0.now ++ result.1.now ∷ result.2.now }
    ensures reached { spec.is_reached name result.1.now ≡ true }
{
    let mut i = 0;
    while i < parts.len() {
        if reached_in(&parts[i], name) {
            return (&parts[..i], &parts[i], &parts[i + 1..]);
        }
        i += 1;
    }
    unreachable!()
}

/// The value of a name with which an expression is the target.
///
/// # Errors
///
/// `TooLarge` where no value of 64 bits fits.
#[tactic(auto, using(crate::proofs::Reached::reachings))]
fn undo<V: Lookup>(expr: &Expr, name: u32, target: Value, values: &V) -> Result<Value, Fail>
    requires way { IsOnWay name expr.now }
    requires target { Fits target }
    requires beside { AreValues (beside name expr.now (V.views values.now)) }
    requires interval { IsMeasurable (V.elapsed values.now) }
    ensures { Undoes (answers_by name expr.now (V.views values.now)) target result }
{
    match expr {
        Expr::Read(_) => Ok(target),
        Expr::Neg(part) => match before_neg(target) {
            Ok(before) => undo(part.get(), name, before, values),
            Err(kind) => Err(kind),
        },
        Expr::Not(part) => match before_not(target) {
            Ok(before) => undo(part.get(), name, before, values),
            Err(kind) => Err(kind),
        },
        Expr::Chain(parts, ops) => {
            let (front, part, back) = around(parts.as_slice(), name);
            match before_chain(front, ops.as_slice(), back, target, values) {
                Ok(before) => undo(part, name, before, values),
                Err(kind) => Err(kind),
            }
        }
        Expr::Const(_) => unreachable!(),
        Expr::Relation(_, _, _) => unreachable!(),
        Expr::If(_, _, _) => unreachable!(),
        Expr::Apply(_, _) => unreachable!(),
        Expr::Previous(_) => unreachable!(),
        Expr::FirstTick(_) => unreachable!(),
        Expr::IntervalTimes(_, _) => unreachable!(),
        Expr::Hold(_) => unreachable!(),
        Expr::Convert(_, _) => unreachable!(),
        Expr::Sample(_, _) => unreachable!(),
    }
}

/// A value of the machine, which has 64 bits.
fn of_machine(value: Value) -> Value
    ensures same { result ≡ value }
    ensures fits { Fits result }
{
    match value {
        Value::Int(number) => Value::Int(number),
        Value::Bool(truth) => Value::Bool(truth),
    }
}

/// The first failure among several expressions.
fn check_all<V: Lookup>(parts: &[Expr], values: &V) -> Result<(), Fail>
    requires present { ArePresent (answers parts.now (V.views values.now)) }
    requires plain { all_samples_are_plain parts.now ≡ true }
    requires interval { IsMeasurable (V.elapsed values.now) }
    ensures { ChecksAll (answers parts.now (V.views values.now)) result }
{
    let mut i = 0;
    while i < parts.len() {
        match eval(&parts[i], values) {
            Ok(_) => {}
            Err(kind) => return Err(kind),
        }
        i += 1;
    }
    Ok(())
}

/// The first failure among the parts of a chain in front of the way, which count as one.
fn check_front<V: Lookup>(front: &[Expr], ops: &[ChainOp], values: &V) -> Result<(), Fail>
    requires present { ArePresent (front_of ops.now (answers front.now (V.views values.now))) }
    requires plain { all_samples_are_plain front.now ≡ true }
    requires interval { IsMeasurable (V.elapsed values.now) }
    ensures { ChecksAll (front_of ops.now (answers front.now (V.views values.now))) result }
{
    if front.is_empty() {
        return Ok(());
    }
    match eval_chain(front, ops, values) {
        Ok(_) => Ok(()),
        Err(kind) => Err(kind),
    }
}

/// The first failure among the parts beside the way to a name, in the order of the text.
#[tactic(auto, using(crate::proofs::Reached::reachings))]
fn check_beside<V: Lookup>(expr: &Expr, name: u32, values: &V) -> Result<(), Fail>
    requires way { IsOnWay name expr.now }
    requires present { ArePresent (beside name expr.now (V.views values.now)) }
    requires interval { IsMeasurable (V.elapsed values.now) }
    ensures { Checks name expr.now (V.views values.now) result }
{
    match expr {
        Expr::Read(_) => Ok(()),
        Expr::Neg(part) => check_beside(part.get(), name, values),
        Expr::Not(part) => check_beside(part.get(), name, values),
        Expr::Chain(parts, ops) => {
            let (front, part, back) = around(parts.as_slice(), name);
            match check_front(front, ops.as_slice(), values) {
                Ok(()) => {}
                Err(kind) => return Err(kind),
            }
            match check_beside(part, name, values) {
                Ok(()) => {}
                Err(kind) => return Err(kind),
            }
            check_all(back, values)
        }
        Expr::Const(_) => unreachable!(),
        Expr::Relation(_, _, _) => unreachable!(),
        Expr::If(_, _, _) => unreachable!(),
        Expr::Apply(_, _) => unreachable!(),
        Expr::Previous(_) => unreachable!(),
        Expr::FirstTick(_) => unreachable!(),
        Expr::IntervalTimes(_, _) => unreachable!(),
        Expr::Hold(_) => unreachable!(),
        Expr::Convert(_, _) => unreachable!(),
        Expr::Sample(_, _) => unreachable!(),
    }
}

/// The only value of a name that makes both sides of an equation equal.
///
/// # Errors
///
/// The first failure among the parts beside the way to the name, in the order of the text; where these have values,
/// `TooLarge`, and no value of 64 bits makes both sides equal.
pub fn solve_value<V: Lookup>(
    equation: &Equation,
    name: u32,
    spine: Spine,
    values: &V,
) -> Result<Value, Fail>
    requires spine { IsSpineOf name equation.now spine.left }
    requires made { AreWellMade equation.now }
    requires present { ArePresent (seen_by (V.views values.now) (parts_beside name equation.now)) }
    requires interval { IsMeasurable (V.elapsed values.now) }
    ensures { Solves name equation.now (V.views values.now) result }
{
    let Equation::Valued { left, right, .. } = equation else {
        unreachable!();
    };
    if spine.left {
        match check_beside(left, name, values) {
            Ok(()) => {}
            Err(kind) => return Err(kind),
        }
        match eval(right, values) {
            Ok(target) => undo(left, name, of_machine(target), values),
            Err(kind) => Err(kind),
        }
    } else {
        let target = match eval(left, values) {
            Ok(target) => target,
            Err(kind) => return Err(kind),
        };
        match check_beside(right, name, values) {
            Ok(()) => undo(right, name, of_machine(target), values),
            Err(kind) => Err(kind),
        }
    }
}
