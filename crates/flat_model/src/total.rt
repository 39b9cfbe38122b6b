ghost use Rattle.std.specs.Prelude.{◌≡◌, []};
ghost use Rattle.flat_model.specs.Operators.{chain, joined, read};
ghost use Rattle.flat_model.specs.Functions.{called};
ghost use Rattle.flat_model.specs.Meaning.{value_of, answers};
ghost use Rattle.flat_model.specs.Values.{stated, failed, truth_in, value_in, views_of};

use crate::evaluate::is_enough;
use crate::expression::{Expr, Fun};
use crate::operate::{
    Answer, apply_answer, call_one_answer, call_two_answer, compare_answers, invert_answer,
    negate_answer,
};
use sync_values::{ChainOp, Value};

/// The value of a name, where it has one.
fn value_at(now: &[Option<Value>], name: u32) -> Answer
    ensures { stated result ≡ read (value_in now.now name) }
{
    match now.get(name as usize) {
        Some(Some(value)) => Answer::Is(*value),
        _ => Answer::Absent,
    }
}

/// A chain whose first parts gave this answer, with one more part.
#[cycle(answer)]
fn joined_answer(op: ChainOp, total: Answer, part: &Expr, now: &[Option<Value>]) -> Answer
    ensures { stated result ≡ joined op (stated total) (value_of part.now (views_of now.now)) }
{
    let Answer::Is(value) = total else {
        return total;
    };
    if is_enough(op, value) {
        return total;
    }
    match answer(part, now) {
        Answer::Is(next) => apply_answer(op, value, next),
        other => other,
    }
}

/// What a chain gives, grouped to the left.
#[cycle(answer)]
fn chain_answer(parts: &[Expr], ops: &[ChainOp], now: &[Option<Value>]) -> Answer
    ensures { stated result ≡ chain ops.now (answers parts.now (views_of now.now)) }
{
    let Some((first, rest)) = parts.split_first() else {
        return Answer::Absent;
    };
    let mut total = answer(first, now);
    for (i, part) in rest.iter().enumerate() {
        let Some(op) = ops.get(i) else {
            break;
        };
        total = joined_answer(*op, total, part, now);
    }
    total
}

/// What a call gives, whose arguments are evaluated in their order.
#[cycle(answer)]
fn call_answer(function: Fun, parts: &[Expr], now: &[Option<Value>]) -> Answer
    ensures { stated result ≡ called function (answers parts.now (views_of now.now)) }
{
    let Some((first, rest)) = parts.split_first() else {
        return Answer::Absent;
    };
    let first = answer(first, now);
    let Answer::Is(left) = first else {
        return first;
    };
    let Some((second, more)) = rest.split_first() else {
        return call_one_answer(function, left);
    };
    let second = answer(second, now);
    let Answer::Is(right) = second else {
        return second;
    };
    if !more.is_empty() {
        return Answer::Absent;
    }
    call_two_answer(function, left, right)
}

/// The truth value that a condition gives, if it gives one.
fn truth_of(condition: Answer) -> Option<bool>
    ensures { result ≡ truth_in (stated condition) }
{
    match condition {
        Answer::Is(Value::Bool(truth)) => Some(truth),
        _ => None,
    }
}

/// What a condition that is no truth value gives in place of a branch.
fn no_choice(condition: Answer) -> Answer
    ensures { stated result ≡ failed (stated condition) }
{
    match condition {
        Answer::Fails(kind) => Answer::Fails(kind),
        _ => Answer::Absent,
    }
}

/// What an expression gives over the values of one moment, one for each name that has one. Nothing is known of ticks
/// and of earlier moments, so what asks for a last value, a value at the tick before or the left limit gives nothing.
/// It takes no memory.
///
/// Source: MLS 3.6, chapter 3, "Operators and Expressions", in this project's profile.
#[cycle(answer)]
#[tactic(auto, using(crate::proofs::Values::values))]
pub fn answer(expr: &Expr, now: &[Option<Value>]) -> Answer
    ensures { stated result ≡ value_of expr.now (views_of now.now) }
{
    match expr {
        Expr::Const(value) => Answer::Is(*value),
        Expr::Read(name) => value_at(now, *name),
        Expr::Chain(parts, ops) => chain_answer(parts.as_slice(), ops.as_slice(), now),
        Expr::Relation(rel, left, right) => {
            compare_answers(*rel, answer(left.get(), now), answer(right.get(), now))
        }
        Expr::Neg(part) => negate_answer(answer(part.get(), now)),
        Expr::Not(part) => invert_answer(answer(part.get(), now)),
        Expr::If(conditions, branches, other) => {
            for (i, condition) in conditions.as_slice().iter().enumerate() {
                let condition = answer(condition, now);
                let Some(holds) = truth_of(condition) else {
                    return no_choice(condition);
                };
                let Some(branch) = branches.as_slice().get(i) else {
                    return Answer::Absent;
                };
                if holds {
                    return answer(branch, now);
                }
            }
            answer(other.get(), now)
        }
        Expr::Apply(function, parts) => call_answer(*function, parts.as_slice(), now),
        Expr::Previous(_) => Answer::Absent,
        Expr::FirstTick(_) => Answer::Is(Value::Bool(false)),
        Expr::IntervalTimes(_, _) => Answer::Is(Value::Int(0)),
        Expr::Hold(_) => Answer::Absent,
        Expr::Convert(_, _) => Answer::Absent,
        Expr::Sample(part, _) => answer(part.get(), &[]),
    }
}
