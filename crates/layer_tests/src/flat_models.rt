ghost use Rattle.std.specs.Prelude.{◌≡◌, ◌≢◌, [], ◌∷◌, true};
ghost use Rattle.flat_model.specs.declared.evaluate.Vantage.{Vantage};
ghost use Rattle.flat_model.specs.Operators.{Absent, Fails};
ghost use Rattle.flat_model.specs.Views.{Views};
ghost use Rattle.flat_model.specs.Meaning.{value_of};
ghost use Rattle.flat_model.specs.Samples.{may_stand, samples_are_plain};
ghost use Rattle.flat_model.specs.Intervals.{IsMeasurable};

use flat_model::{Conversion, Elapsed, Expr, Fun, Lookup, eval, tick_law};
use rational_time::{Ratio, make};
use sqlite_items::Boxed;
use std::alloc::Global;
use std::process::Abort;
use sync_values::{ChainOp, Fail, List, Rel, Value};

/// At the moment name n has the value n, at its tick before 100 + n and at its last tick 200 + n. At the moment before
/// each value is 1000 more.
#[derive(Drop)]
struct Shown {
    period: Ratio,
}

impl Lookup for Shown {
    ghost use Rattle.std.specs.Prelude.{Some, ◌+◌, ◌*◌, pos, false};
    ghost use Rattle.sync_values.specs.declared.value.Value.TheVariants as value;
    ghost use Rattle.flat_model.specs.declared.clock.Elapsed.TheVariants.{Period};
    ghost use Rattle.flat_model.specs.Intervals.{length_of};

    ghost views = { λ s back. record { now = λ x. Some (value.Int (pos (x + 1000 * back))); previous = λ x. Some (value.Int (pos (x + 100 + 1000 * back))); last = λ x. Some (value.Int (pos (x + 200 + 1000 * back))); first = false; interval = length_of (Period s.period) } };

    ghost elapsed = { λ s. Period s.period };

    fn now(&self, name: u32) -> Option<Value> {
        Some(Value::Int(i64::from(name)))
    }

    fn previous(&self, name: u32) -> Value {
        Value::Int(i64::from(name) + 100)
    }

    fn last(&self, name: u32) -> Value {
        Value::Int(i64::from(name) + 200)
    }

    fn left_now(&self, name: u32) -> Option<Value> {
        Some(Value::Int(i64::from(name) + 1000))
    }

    fn left_last(&self, name: u32) -> Value {
        Value::Int(i64::from(name) + 1200)
    }

    fn first(&self) -> bool {
        false
    }

    fn interval(&self) -> Elapsed {
        Elapsed::Period(self.period)
    }
}

fn at_moment() -> Shown {
    Shown { period: make(3, 2) }
}

fn value<V: Lookup>(expr: Expr, values: &V) -> Result<Value, Fail>
    requires present { value_of expr (V.views values.now) ≢ Absent }
    requires samples { samples_are_plain expr ≡ true }
    requires interval { IsMeasurable (V.elapsed values.now) }
{
    eval(&expr, values)
}

fn boxed(rt: &impl Abort, alloc: Global, expr: Expr) -> Boxed<Expr>
    ensures { result ≡ expr }
{
    Boxed::new(alloc, expr).expect(rt, "memory")
}

fn one(rt: &impl Abort, alloc: Global, expr: Expr) -> List<Expr>
    ensures { result ≡ expr ∷ [] }
{
    let mut list = List::new(alloc);
    list.push(expr).expect(rt, "memory");
    list
}

fn two(rt: &impl Abort, alloc: Global, a: Expr, b: Expr) -> List<Expr>
    ensures { result ≡ a ∷ b ∷ [] }
{
    let mut list = one(rt, alloc, a);
    list.push(b).expect(rt, "memory");
    list
}

/// `a op b`
fn chain(rt: &impl Abort, alloc: Global, op: ChainOp, a: Expr, b: Expr) -> Expr
    ensures { result ≡ Expr.Chain (a ∷ b ∷ []) (op ∷ []) }
{
    let mut ops = List::new(alloc);
    ops.push(op).expect(rt, "memory");
    Expr::Chain(two(rt, alloc, a, b), ops)
}

/// The value of `a op b`.
fn joined(rt: &impl Abort, alloc: Global, op: ChainOp, a: i64, b: i64) -> Result<Value, Fail>
    requires over { op ≢ ChainOp.Over }
    requires and { op ≢ ChainOp.And }
    requires or { op ≢ ChainOp.Or }
{
    let left = Expr::Const(Value::Int(a));
    let right = Expr::Const(Value::Int(b));
    value(chain(rt, alloc, op, left, right), &at_moment())
}

/// The value of a function of two numbers.
fn called(rt: &impl Abort, alloc: Global, function: Fun, a: i64, b: i64) -> Result<Value, Fail>
    requires { function ≢ Fun.Abs }
{
    let left = Expr::Const(Value::Int(a));
    let right = Expr::Const(Value::Int(b));
    value(
        Expr::Apply(function, two(rt, alloc, left, right)),
        &at_moment(),
    )
}

/// The value of `a rel b` of two Booleans.
fn related(rt: &impl Abort, alloc: Global, rel: Rel, a: bool, b: bool) -> Result<Value, Fail> {
    let left = boxed(rt, alloc, Expr::Const(Value::Bool(a)));
    let right = boxed(rt, alloc, Expr::Const(Value::Bool(b)));
    value(Expr::Relation(rel, left, right), &at_moment())
}

/// What is made of two numbers.
#[derive(Clone, Copy)]
enum Made {
    Sum,
    Difference,
    Product,
    Div,
    Mod,
    Rem,
    Min,
    Max,
}

fn value_made(rt: &impl Abort, alloc: Global, how: Made, a: i64, b: i64) -> Result<Value, Fail> {
    match how {
        Made::Sum => joined(rt, alloc, ChainOp::Plus, a, b),
        Made::Difference => joined(rt, alloc, ChainOp::Minus, a, b),
        Made::Product => joined(rt, alloc, ChainOp::Times, a, b),
        Made::Div => called(rt, alloc, Fun::Div, a, b),
        Made::Mod => called(rt, alloc, Fun::Mod, a, b),
        Made::Rem => called(rt, alloc, Fun::Rem, a, b),
        Made::Min => called(rt, alloc, Fun::Min, a, b),
        Made::Max => called(rt, alloc, Fun::Max, a, b),
    }
}

const DIVIDE: Result<Value, Fail> = Err(Fail::Divide);

const LARGE: Result<Value, Fail> = Err(Fail::TooLarge);

const EDGES: [(Made, i64, i64, Result<Value, Fail>); 48] = [
    (Made::Sum, 7, -2, Ok(Value::Int(5))),
    (Made::Difference, 7, -2, Ok(Value::Int(9))),
    (Made::Product, 7, -2, Ok(Value::Int(-14))),
    (Made::Div, 7, -2, Ok(Value::Int(-3))),
    (Made::Mod, 7, -2, Ok(Value::Int(-1))),
    (Made::Rem, 7, -2, Ok(Value::Int(1))),
    (Made::Min, 7, -2, Ok(Value::Int(-2))),
    (Made::Max, 7, -2, Ok(Value::Int(7))),
    (Made::Sum, -7, 2, Ok(Value::Int(-5))),
    (Made::Difference, -7, 2, Ok(Value::Int(-9))),
    (Made::Product, -7, 2, Ok(Value::Int(-14))),
    (Made::Div, -7, 2, Ok(Value::Int(-3))),
    (Made::Mod, -7, 2, Ok(Value::Int(1))),
    (Made::Rem, -7, 2, Ok(Value::Int(-1))),
    (Made::Min, -7, 2, Ok(Value::Int(-7))),
    (Made::Max, -7, 2, Ok(Value::Int(2))),
    (Made::Sum, 5, 0, Ok(Value::Int(5))),
    (Made::Difference, 5, 0, Ok(Value::Int(5))),
    (Made::Product, 5, 0, Ok(Value::Int(0))),
    (Made::Div, 5, 0, DIVIDE),
    (Made::Mod, 5, 0, DIVIDE),
    (Made::Rem, 5, 0, DIVIDE),
    (Made::Min, 5, 0, Ok(Value::Int(0))),
    (Made::Max, 5, 0, Ok(Value::Int(5))),
    (Made::Sum, i64::MIN, -1, LARGE),
    (Made::Difference, i64::MIN, -1, Ok(Value::Int(-i64::MAX))),
    (Made::Product, i64::MIN, -1, LARGE),
    (Made::Div, i64::MIN, -1, LARGE),
    (Made::Mod, i64::MIN, -1, Ok(Value::Int(0))),
    (Made::Rem, i64::MIN, -1, Ok(Value::Int(0))),
    (Made::Min, i64::MIN, -1, Ok(Value::Int(i64::MIN))),
    (Made::Max, i64::MIN, -1, Ok(Value::Int(-1))),
    (Made::Sum, i64::MAX, 1, LARGE),
    (Made::Difference, i64::MAX, 1, Ok(Value::Int(i64::MAX - 1))),
    (Made::Product, i64::MAX, 1, Ok(Value::Int(i64::MAX))),
    (Made::Div, i64::MAX, 1, Ok(Value::Int(i64::MAX))),
    (Made::Mod, i64::MAX, 1, Ok(Value::Int(0))),
    (Made::Rem, i64::MAX, 1, Ok(Value::Int(0))),
    (Made::Min, i64::MAX, 1, Ok(Value::Int(1))),
    (Made::Max, i64::MAX, 1, Ok(Value::Int(i64::MAX))),
    (Made::Sum, 0, i64::MIN, Ok(Value::Int(i64::MIN))),
    (Made::Difference, 0, i64::MIN, LARGE),
    (Made::Product, 0, i64::MIN, Ok(Value::Int(0))),
    (Made::Div, 0, i64::MIN, Ok(Value::Int(0))),
    (Made::Mod, 0, i64::MIN, Ok(Value::Int(0))),
    (Made::Rem, 0, i64::MIN, Ok(Value::Int(0))),
    (Made::Min, 0, i64::MIN, Ok(Value::Int(i64::MIN))),
    (Made::Max, 0, i64::MIN, Ok(Value::Int(0))),
];

#[test]
fn numbers_at_the_edges(rt: HostRuntime) {
    for row in &EDGES {
        let found = value_made(&rt, rt.alloc(), row.0, row.1, row.2);
        assert!(rt; found == row.3, "{found:?} of {} and {}", row.1, row.2);
    }
}

const RELATIONS: [(Rel, bool, bool, bool); 9] = [
    (Rel::Less, false, true, true),
    (Rel::GreaterEq, false, true, false),
    (Rel::Equal, false, true, false),
    (Rel::Less, true, false, false),
    (Rel::GreaterEq, true, false, true),
    (Rel::Equal, true, false, false),
    (Rel::Less, true, true, false),
    (Rel::GreaterEq, true, true, true),
    (Rel::Equal, true, true, true),
];

#[test]
fn relations_of_booleans(rt: HostRuntime) {
    for row in &RELATIONS {
        let found = related(&rt, rt.alloc(), row.0, row.1, row.2);
        assert!(rt;
            found == Ok(Value::Bool(row.3)),
            "{:?} of {} and {}",
            row.0,
            row.1,
            row.2
        );
    }
}

/// An expression that fails: `div(1, 0)`, or the number below the least with its sign turned.
#[tactic(auto, using(flat_model::proofs::Values::values, flat_model::proofs::Standings::standings))]
fn failing(rt: &impl Abort, alloc: Global, kind: Fail) -> Expr
    ensures fails { (views : Views) → value_of result views ≡ Fails kind }
    ensures plain { (vantage : Vantage) → may_stand result vantage ≡ true }
{
    match kind {
        Fail::Divide => {
            let number = Expr::Const(Value::Int(1));
            let zero = Expr::Const(Value::Int(0));
            Expr::Apply(Fun::Div, two(rt, alloc, number, zero))
        }
        Fail::TooLarge => Expr::Neg(boxed(rt, alloc, Expr::Const(Value::Int(i64::MIN)))),
    }
}

/// The value of `b op div(1, 0)`.
fn short_circuit(rt: &impl Abort, alloc: Global, b: bool, op: ChainOp) -> Result<Value, Fail> {
    let failed = failing(rt, alloc, Fail::Divide);
    let whole = chain(rt, alloc, op, Expr::Const(Value::Bool(b)), failed);
    value(whole, &at_moment())
}

/// The value of `if b then div(1, 0) else 2`.
#[tactic(auto, using(flat_model::proofs::Values::values, flat_model::proofs::Standings::standings))]
fn choice(rt: &impl Abort, alloc: Global, b: bool) -> Result<Value, Fail> {
    let conditions = one(rt, alloc, Expr::Const(Value::Bool(b)));
    let branches = one(rt, alloc, failing(rt, alloc, Fail::Divide));
    let other = boxed(rt, alloc, Expr::Const(Value::Int(2)));
    value(Expr::If(conditions, branches, other), &at_moment())
}

/// The value of the sum of two expressions that fail.
fn two_failures(rt: &impl Abort, alloc: Global, first: Fail, second: Fail) -> Result<Value, Fail> {
    let left = failing(rt, alloc, first);
    let right = failing(rt, alloc, second);
    let whole = chain(rt, alloc, ChainOp::Plus, left, right);
    value(whole, &at_moment())
}

const SHORT_CIRCUITS: [(bool, ChainOp, Result<Value, Fail>); 4] = [
    (true, ChainOp::Or, Ok(Value::Bool(true))),
    (false, ChainOp::Or, DIVIDE),
    (false, ChainOp::And, Ok(Value::Bool(false))),
    (true, ChainOp::And, DIVIDE),
];

#[test]
fn only_what_is_needed(rt: HostRuntime) {
    let alloc = rt.alloc();
    for row in &SHORT_CIRCUITS {
        let found = short_circuit(&rt, alloc, row.0, row.1);
        assert!(rt; found == row.2, "{:?} behind {}", row.1, row.0);
    }
    assert!(rt; choice(&rt, alloc, false) == Ok(Value::Int(2)));
    assert!(rt; choice(&rt, alloc, true) == DIVIDE);
    assert!(rt; two_failures(&rt, alloc, Fail::Divide, Fail::TooLarge) == DIVIDE);
    assert!(rt; two_failures(&rt, alloc, Fail::TooLarge, Fail::Divide) == LARGE);
}

/// The value of `sample` of a name.
fn sampled(rt: &impl Abort, alloc: Global, name: u32) -> Result<Value, Fail> {
    let part = boxed(rt, alloc, Expr::Read(name));
    value(Expr::Sample(part, None), &at_moment())
}

#[test]
#[tactic(auto, using(flat_model::proofs::Values::values, flat_model::proofs::Standings::standings))]
fn names_from_a_moment(rt: HostRuntime) {
    let values = at_moment();
    assert!(rt; value(Expr::Read(7), &values) == Ok(Value::Int(7)));
    assert!(rt; value(Expr::Previous(7), &values) == Ok(Value::Int(107)));
    assert!(rt; value(Expr::Hold(7), &values) == Ok(Value::Int(207)));
    assert!(rt; value(Expr::Convert(Conversion::NoClock, 7), &values) == Ok(Value::Int(207)));
    assert!(rt; sampled(&rt, rt.alloc(), 7) == Ok(Value::Int(1007)));
    assert!(rt; value(Expr::FirstTick(None), &values) == Ok(Value::Bool(false)));
    assert!(rt; value(Expr::IntervalTimes(None, 3), &values) == Ok(Value::Int(4)));
    tick_law();
}
