ghost use Rattle.std.specs.Prelude.{◌≡◌, ◌==◌, true, false, [], ◌∷◌};
ghost use Rattle.sync_values.specs.declared.value.Value.TheVariants as value;
ghost use Rattle.flat_model.specs.declared.expression.Fun.TheVariants.{Div};
ghost use Rattle.flat_model.specs.Occurrences as spec;
ghost use Rattle.order_tests.specs.Tame.{IsReady, IsTame};

use eq_orient::{solve_value, spine};
use flat_model::{Elapsed, Equation, Expr, Fun, Lookup};
use rational_time::{Ratio, make};
use sqlite_items::Boxed;
use std::alloc::Global;
use std::process::Abort;
use sync_values::{ChainOp, Fail, List, Value};

/// Each name is 7, and was 3 at its tick before.
#[derive(Drop)]
struct Shown {
    period: Ratio,
}

impl Lookup for Shown {
    ghost use Rattle.std.specs.Prelude.{Some, pos, false};
    ghost use Rattle.sync_values.specs.declared.value.Value.TheVariants as value;
    ghost use Rattle.flat_model.specs.declared.clock.Elapsed.TheVariants.{Period};
    ghost use Rattle.flat_model.specs.Intervals.{length_of};

    ghost views = { λ s back. record { now = λ x. Some (value.Int (pos 7)); previous = λ x. Some (value.Int (pos 3)); last = λ x. Some (value.Int (pos 7)); first = false; interval = length_of (Period s.period) } };

    ghost elapsed = { λ s. Period s.period };

    fn now(&self, _name: u32) -> Option<Value> {
        Some(Value::Int(7))
    }

    fn previous(&self, _name: u32) -> Value {
        Value::Int(3)
    }

    fn last(&self, _name: u32) -> Value {
        Value::Int(7)
    }

    fn left_now(&self, _name: u32) -> Option<Value> {
        Some(Value::Int(7))
    }

    fn left_last(&self, _name: u32) -> Value {
        Value::Int(7)
    }

    fn first(&self) -> bool {
        false
    }

    fn interval(&self) -> Elapsed {
        Elapsed::Period(self.period)
    }
}

fn boxed(rt: &impl Abort, alloc: Global, expr: Expr) -> Boxed<Expr>
    ensures { result ≡ expr }
{
    Boxed::new(alloc, expr).expect(rt, "memory")
}

fn one(rt: &impl Abort, alloc: Global, expr: Expr) -> List<Expr>
    ensures { result ≡ expr ∷ [] }
{
    let mut list = List::new(alloc);
    list.push(expr).expect(rt, "memory");
    list
}

fn two(rt: &impl Abort, alloc: Global, a: Expr, b: Expr) -> List<Expr>
    ensures { result ≡ a ∷ b ∷ [] }
{
    let mut list = one(rt, alloc, a);
    list.push(b).expect(rt, "memory");
    list
}

fn own() -> Expr
    ensures { IsTame result }
{
    Expr::Read(0)
}

/// Name 1.
fn other() -> Expr
    ensures { IsTame result }
{
    Expr::Read(1)
}

/// Name 0 at its tick before.
fn before() -> Expr
    ensures { IsTame result }
{
    Expr::Previous(0)
}

fn number(number: i64) -> Expr
    ensures { IsTame result }
{
    Expr::Const(Value::Int(number))
}

fn quotient(rt: &impl Abort, alloc: Global, a: i64, b: i64) -> Expr
    ensures { IsTame result }
{
    let first = Expr::Const(Value::Int(a));
    let second = Expr::Const(Value::Int(b));
    Expr::Apply(Fun::Div, two(rt, alloc, first, second))
}

fn joined(rt: &impl Abort, alloc: Global, op: ChainOp, a: Expr, b: Expr) -> Expr
    ensures { result ≡ Expr.Chain (a ∷ b ∷ []) (op ∷ []) }
{
    let mut ops = List::new(alloc);
    ops.push(op).expect(rt, "memory");
    Expr::Chain(two(rt, alloc, a, b), ops)
}

/// `a op b`
fn chain(rt: &impl Abort, alloc: Global, op: ChainOp, a: Expr, b: Expr) -> Expr
    requires sum { spec.is_sum op ≡ true }
    requires first { IsTame a }
    requires second { IsTame b }
    ensures { IsTame result }
{
    joined(rt, alloc, op, a, b)
}

fn plus(rt: &impl Abort, alloc: Global, a: Expr, b: Expr) -> Expr
    requires first { IsTame a }
    requires second { IsTame b }
    ensures { IsTame result }
{
    chain(rt, alloc, ChainOp::Plus, a, b)
}

fn minus(rt: &impl Abort, alloc: Global, a: Expr, b: Expr) -> Expr
    requires first { IsTame a }
    requires second { IsTame b }
    ensures { IsTame result }
{
    chain(rt, alloc, ChainOp::Minus, a, b)
}

fn neg(rt: &impl Abort, alloc: Global, part: Expr) -> Expr
    requires { IsTame part }
    ensures { IsTame result }
{
    Expr::Neg(boxed(rt, alloc, part))
}

/// A side of an equation with name 0, which is x, or without it.
#[derive(Clone, Copy)]
enum Side {
    /// `x`
    Own,
    /// `k`
    Number(i64),
    /// `x + k`
    Plus(i64),
    /// `k + x`
    PlusBehind(i64),
    /// `x - k`
    Minus(i64),
    /// `k - x`
    TakenFrom(i64),
    /// `-x`
    Opposite,
    /// `-(k - x)`
    OppositeOfTaken(i64),
    /// `k - (x + j)`
    Nested(i64, i64),
    /// `(k + x) - j`
    Between(i64, i64),
    /// `x + y`, where y is name 1
    WithOther,
    /// `previous(x) - x`
    FromBefore,
    /// `previous(x) + k`
    Before(i64),
    /// `x + div(k, j)`
    WithQuotient(i64, i64),
    /// `div(k, j) + (x + (i64::MAX + 1))`
    TwoFailures(i64, i64),
    /// `i64::MAX + 1`
    Large,
    /// `div(1, 0)`
    ByZero,
}

fn tame(rt: &impl Abort, alloc: Global, side: Side) -> Expr
    ensures { IsTame result }
{
    match side {
        Side::Own => own(),
        Side::Number(k) => number(k),
        Side::Plus(k) => plus(rt, alloc, own(), number(k)),
        Side::PlusBehind(k) => plus(rt, alloc, number(k), own()),
        Side::Minus(k) => minus(rt, alloc, own(), number(k)),
        Side::TakenFrom(k) => minus(rt, alloc, number(k), own()),
        Side::Opposite => neg(rt, alloc, own()),
        Side::OppositeOfTaken(k) => neg(rt, alloc, minus(rt, alloc, number(k), own())),
        Side::Nested(k, j) => {
            let sum = plus(rt, alloc, own(), number(j));
            minus(rt, alloc, number(k), sum)
        }
        Side::Between(k, j) => {
            let sum = plus(rt, alloc, number(k), own());
            minus(rt, alloc, sum, number(j))
        }
        Side::WithOther => plus(rt, alloc, own(), other()),
        Side::FromBefore => minus(rt, alloc, before(), own()),
        Side::Before(k) => plus(rt, alloc, before(), number(k)),
        Side::WithQuotient(k, j) => plus(rt, alloc, own(), quotient(rt, alloc, k, j)),
        Side::TwoFailures(k, j) => {
            let large = plus(rt, alloc, number(i64::MAX), number(1));
            let sum = plus(rt, alloc, own(), large);
            plus(rt, alloc, quotient(rt, alloc, k, j), sum)
        }
        Side::Large => plus(rt, alloc, number(i64::MAX), number(1)),
        Side::ByZero => quotient(rt, alloc, 1, 0),
    }
}

/// The value of name 0 in an equation, or how it fails; none where the equation is not solvable for it.
fn solved(left: Expr, right: Expr) -> Option<Result<Value, Fail>>
    requires left { IsReady left }
    requires right { IsReady right }
{
    let shown = Shown { period: make(1, 1) };
    let equation = Equation::Valued {
        left,
        right,
        clause: None,
    };
    match spine(&equation, 0) {
        Some(spine) => Some(solve_value(&equation, 0, spine, &shown)),
        None => None,
    }
}

fn solved_sides(
    rt: &impl Abort,
    alloc: Global,
    left: Side,
    right: Side,
) -> Option<Result<Value, Fail>> {
    solved(tame(rt, alloc, left), tame(rt, alloc, right))
}

/// A number, a failure, or an equation that is not solvable for name 0.
#[derive(Clone, Copy)]
enum Wanted {
    Whole(i64),
    Fails(Fail),
    Unsolvable,
}

fn wanted_answer(wanted: Wanted) -> Option<Result<Value, Fail>> {
    match wanted {
        Wanted::Whole(number) => Some(Ok(Value::Int(number))),
        Wanted::Fails(kind) => Some(Err(kind)),
        Wanted::Unsolvable => None,
    }
}

const LARGE: Wanted = Wanted::Fails(Fail::TooLarge);

const DIVIDE: Wanted = Wanted::Fails(Fail::Divide);

const MAX: i64 = i64::MAX;

const MIN: i64 = i64::MIN;

/// Two sides of an equation, and what it gives for name 0.
const CASES: [(Side, Side, Wanted); 49] = [
    // Each operator, on either side.
    (Side::Own, Side::Number(5), Wanted::Whole(5)),
    (Side::Number(5), Side::Own, Wanted::Whole(5)),
    (Side::Plus(2), Side::Number(5), Wanted::Whole(3)),
    (Side::PlusBehind(2), Side::Number(5), Wanted::Whole(3)),
    (Side::Minus(2), Side::Number(5), Wanted::Whole(7)),
    (Side::TakenFrom(2), Side::Number(5), Wanted::Whole(-3)),
    (Side::Number(5), Side::TakenFrom(2), Wanted::Whole(-3)),
    (Side::Opposite, Side::Number(5), Wanted::Whole(-5)),
    // Nesting.
    (Side::OppositeOfTaken(2), Side::Number(5), Wanted::Whole(7)),
    (Side::Nested(10, 3), Side::Number(0), Wanted::Whole(7)),
    (Side::Nested(10, 3), Side::Number(7), Wanted::Whole(0)),
    (Side::Between(10, 3), Side::Number(0), Wanted::Whole(-7)),
    (Side::WithOther, Side::Number(5), Wanted::Whole(-2)),
    // `previous` of the name itself, which was 3.
    (Side::Own, Side::Before(1), Wanted::Whole(4)),
    (Side::FromBefore, Side::Number(5), Wanted::Whole(-2)),
    (Side::TakenFrom(10), Side::Before(0), Wanted::Whole(7)),
    // The edges of 64 bits.
    (Side::Plus(0), Side::Number(MAX), Wanted::Whole(MAX)),
    (Side::Plus(1), Side::Number(MIN), LARGE),
    (Side::Plus(-1), Side::Number(MAX), LARGE),
    (Side::Plus(1), Side::Number(MIN + 1), Wanted::Whole(MIN)),
    (Side::Plus(MAX), Side::Number(-1), Wanted::Whole(MIN)),
    (Side::Plus(MAX), Side::Number(-2), LARGE),
    (Side::Plus(MIN), Side::Number(-1), Wanted::Whole(MAX)),
    (Side::Plus(MIN), Side::Number(0), LARGE),
    (Side::Minus(1), Side::Number(MAX), LARGE),
    (Side::Minus(-1), Side::Number(MIN), LARGE),
    (Side::Minus(MAX), Side::Number(MIN), Wanted::Whole(-1)),
    (Side::Minus(MIN), Side::Number(MAX), Wanted::Whole(-1)),
    (Side::TakenFrom(0), Side::Number(MIN), LARGE),
    (Side::TakenFrom(-1), Side::Number(MIN), Wanted::Whole(MAX)),
    (Side::TakenFrom(-1), Side::Number(MAX), Wanted::Whole(MIN)),
    (Side::TakenFrom(-2), Side::Number(MAX), LARGE),
    (Side::Opposite, Side::Number(MIN), LARGE),
    (Side::Opposite, Side::Number(MAX), Wanted::Whole(-MAX)),
    (Side::Number(MIN), Side::Opposite, LARGE),
    // A step on the way that does not fit, though a later one would lead back.
    (Side::Between(1, 1), Side::Number(MAX), LARGE),
    (Side::Nested(MIN, 0), Side::Number(1), LARGE),
    // Failures beside the way, the first in the order of the text.
    (Side::WithQuotient(8, 2), Side::Number(5), Wanted::Whole(1)),
    (Side::WithQuotient(1, 0), Side::Number(5), DIVIDE),
    (Side::WithQuotient(1, 0), Side::Large, DIVIDE),
    (Side::Large, Side::WithQuotient(1, 0), LARGE),
    (Side::TwoFailures(1, 0), Side::Number(5), DIVIDE),
    (Side::TwoFailures(1, 1), Side::ByZero, LARGE),
    (Side::ByZero, Side::TwoFailures(1, 1), DIVIDE),
    (Side::Own, Side::ByZero, DIVIDE),
    (Side::Plus(1), Side::Large, LARGE),
    // Not solvable: the name is on both sides, or on none.
    (Side::Own, Side::Plus(1), Wanted::Unsolvable),
    (Side::WithOther, Side::FromBefore, Wanted::Unsolvable),
    (Side::Number(5), Side::Before(2), Wanted::Unsolvable),
];

#[test]
fn solves_for_a_number(rt: HostRuntime) {
    for (left, right, wanted) in &CASES {
        let answer = solved_sides(&rt, rt.alloc(), *left, *right);
        assert!(rt; answer == wanted_answer(*wanted));
    }
}

fn not_own(rt: &impl Abort, alloc: Global) -> Expr
    ensures { IsReady result }
{
    Expr::Not(boxed(rt, alloc, Expr::Read(0)))
}

fn truth(truth: bool) -> Expr
    ensures { IsReady result }
{
    Expr::Const(Value::Bool(truth))
}

#[test]
fn solves_for_a_truth(rt: HostRuntime) {
    for value in [false, true] {
        let wanted = Some(Ok(Value::Bool(!value)));
        assert!(rt; solved(not_own(&rt, rt.alloc()), truth(value)) == wanted);
        assert!(rt; solved(truth(value), not_own(&rt, rt.alloc())) == wanted);
    }
}
