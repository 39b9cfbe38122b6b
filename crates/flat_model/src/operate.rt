ghost use Rattle.std.specs.Prelude.{◌≡◌, ◌≢◌, [], ◌∷◌};
ghost use Rattle.flat_model.specs.Operators.{Is, Absent, settled, negated, inverted, applied, relation};
ghost use Rattle.flat_model.specs.Functions.{called};
ghost use Rattle.flat_model.specs.Values.{stated};
ghost use Rattle.flat_model.specs.Evaluation.{answer_of};

use crate::expression::Fun;
use sync_values::{
    ChainOp, Fail, Rel, Value, abs, add, div, greatest, least, modulo, mul, neg, relate, rem, sub,
};

/// What an expression gives at a moment.
#[derive(Clone, Copy, PartialEq, Eq)]
pub enum Answer {
    Is(Value),
    /// Its leftmost failure.
    Fails(Fail),
    /// It evaluates a part that has no value.
    Absent,
}

/// A number as a value, where it has come out.
fn whole(number: Result<i64, Fail>) -> Result<Value, Fail>
    ensures { answer_of result ≡ settled number }
{
    match number {
        Ok(number) => Ok(Value::Int(number)),
        Err(kind) => Err(kind),
    }
}

/// The number with the other sign, where it has a value.
pub(crate) fn negate(part: Result<Value, Fail>) -> Result<Value, Fail>
    requires { negated (answer_of part) ≢ Absent }
    ensures { answer_of result ≡ negated (answer_of part) }
{
    match part {
        Ok(Value::Int(number)) => whole(neg(number)),
        Ok(Value::Bool(_)) => unreachable!(),
        Err(kind) => Err(kind),
    }
}

/// The other truth value, where it has a value.
pub(crate) fn invert(part: Result<Value, Fail>) -> Result<Value, Fail>
    requires { inverted (answer_of part) ≢ Absent }
    ensures { answer_of result ≡ inverted (answer_of part) }
{
    match part {
        Ok(Value::Bool(truth)) => Ok(Value::Bool(!truth)),
        Ok(Value::Int(_)) => unreachable!(),
        Err(kind) => Err(kind),
    }
}

/// An operator of a chain between two values that decide it together.
pub(crate) fn apply(op: ChainOp, left: Value, right: Value) -> Result<Value, Fail>
    requires { applied op left right ≢ Absent }
    ensures { answer_of result ≡ applied op left right }
{
    match (op, left, right) {
        (ChainOp::Plus, Value::Int(a), Value::Int(b)) => whole(add(a, b)),
        (ChainOp::Minus, Value::Int(a), Value::Int(b)) => whole(sub(a, b)),
        (ChainOp::Times, Value::Int(a), Value::Int(b)) => whole(mul(a, b)),
        (ChainOp::And, Value::Bool(_), Value::Bool(_)) => Ok(right),
        (ChainOp::Or, Value::Bool(_), Value::Bool(_)) => Ok(right),
        _ => unreachable!(),
    }
}

/// Whether a relation holds between two values.
pub(crate) fn compare(rel: Rel, left: Value, right: Value) -> Value
    requires { relation rel (Is left) (Is right) ≢ Absent }
    ensures { Is result ≡ relation rel (Is left) (Is right) }
{
    Value::Bool(relate(rel, left, right))
}

/// A function of one number.
pub(crate) fn call_with_one(function: Fun, part: Value) -> Result<Value, Fail>
    requires { called function (Is part ∷ []) ≢ Absent }
    ensures { answer_of result ≡ called function (Is part ∷ []) }
{
    match (function, part) {
        (Fun::Abs, Value::Int(number)) => whole(abs(number)),
        _ => unreachable!(),
    }
}

/// A function of two numbers.
pub(crate) fn call_with_two(function: Fun, first: Value, second: Value) -> Result<Value, Fail>
    requires { called function (Is first ∷ (Is second ∷ [])) ≢ Absent }
    ensures { answer_of result ≡ called function (Is first ∷ (Is second ∷ [])) }
{
    let (Value::Int(a), Value::Int(b)) = (first, second) else {
        unreachable!();
    };
    match function {
        Fun::Div => whole(div(a, b)),
        Fun::Mod => whole(modulo(a, b)),
        Fun::Rem => whole(rem(a, b)),
        Fun::Min => Ok(Value::Int(least(a, b))),
        Fun::Max => Ok(Value::Int(greatest(a, b))),
        Fun::Abs => unreachable!(),
    }
}

/// A number as an answer.
fn settle(number: Result<i64, Fail>) -> Answer
    ensures { stated result ≡ settled number }
{
    match number {
        Ok(number) => Answer::Is(Value::Int(number)),
        Err(kind) => Answer::Fails(kind),
    }
}

/// The number with the other sign; nothing of a truth value.
pub(crate) fn negate_answer(part: Answer) -> Answer
    ensures { stated result ≡ negated (stated part) }
{
    match part {
        Answer::Is(Value::Int(number)) => settle(neg(number)),
        Answer::Is(Value::Bool(_)) => Answer::Absent,
        other => other,
    }
}

/// The other truth value; nothing of a number.
pub(crate) fn invert_answer(part: Answer) -> Answer
    ensures { stated result ≡ inverted (stated part) }
{
    match part {
        Answer::Is(Value::Bool(truth)) => Answer::Is(Value::Bool(!truth)),
        Answer::Is(Value::Int(_)) => Answer::Absent,
        other => other,
    }
}

/// An operator of a chain between two values; nothing where they are not of its types.
pub(crate) fn apply_answer(op: ChainOp, left: Value, right: Value) -> Answer
    ensures { stated result ≡ applied op left right }
{
    match (op, left, right) {
        (ChainOp::Plus, Value::Int(a), Value::Int(b)) => settle(add(a, b)),
        (ChainOp::Minus, Value::Int(a), Value::Int(b)) => settle(sub(a, b)),
        (ChainOp::Times, Value::Int(a), Value::Int(b)) => settle(mul(a, b)),
        (ChainOp::And, Value::Bool(_), Value::Bool(_)) => Answer::Is(right),
        (ChainOp::Or, Value::Bool(_), Value::Bool(_)) => Answer::Is(right),
        _ => Answer::Absent,
    }
}

/// Whether a relation holds between two values of one type; nothing where they are of two.
pub(crate) fn compare_answers(rel: Rel, left: Answer, right: Answer) -> Answer
    ensures { stated result ≡ relation rel (stated left) (stated right) }
{
    let Answer::Is(a) = left else {
        return left;
    };
    let Answer::Is(b) = right else {
        return right;
    };
    match (a, b) {
        (Value::Int(_), Value::Int(_)) => Answer::Is(Value::Bool(relate(rel, a, b))),
        (Value::Bool(_), Value::Bool(_)) => Answer::Is(Value::Bool(relate(rel, a, b))),
        _ => Answer::Absent,
    }
}

/// A function of one number; nothing where it takes two, or of a truth value.
pub(crate) fn call_one_answer(function: Fun, part: Value) -> Answer
    ensures { stated result ≡ called function (Is part ∷ []) }
{
    match (function, part) {
        (Fun::Abs, Value::Int(number)) => settle(abs(number)),
        _ => Answer::Absent,
    }
}

/// A function of two numbers; nothing where it takes one, or of a truth value.
pub(crate) fn call_two_answer(function: Fun, first: Value, second: Value) -> Answer
    ensures { stated result ≡ called function (Is first ∷ (Is second ∷ [])) }
{
    let (Value::Int(a), Value::Int(b)) = (first, second) else {
        return Answer::Absent;
    };
    match function {
        Fun::Div => settle(div(a, b)),
        Fun::Mod => settle(modulo(a, b)),
        Fun::Rem => settle(rem(a, b)),
        Fun::Min => Answer::Is(Value::Int(least(a, b))),
        Fun::Max => Answer::Is(Value::Int(greatest(a, b))),
        Fun::Abs => Answer::Absent,
    }
}
