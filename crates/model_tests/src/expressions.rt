use flat_model::{Answer, ClockExpr, Conversion, Expr, Fun, answer, copied_clock, copied_expr};
use sqlite_items::Boxed;
use std::alloc::Global;
use std::process::Abort;
use sync_values::{ChainOp, Fail, List, Rel, Value};

/// Name 0 is 4, name 1 has no value, name 2 is true and name 3 is 0.
const NOW: [Option<Value>; 4] = [
    Some(Value::Int(4)),
    None,
    Some(Value::Bool(true)),
    Some(Value::Int(0)),
];

fn boxed(rt: &impl Abort, alloc: Global, expr: Expr) -> Boxed<Expr> {
    Boxed::new(alloc, expr).expect(rt, "memory")
}

fn list(rt: &impl Abort, alloc: Global, first: Expr, second: Expr) -> List<Expr> {
    let mut list = List::new(alloc);
    list.push(first).expect(rt, "memory");
    list.push(second).expect(rt, "memory");
    list
}

fn chain(rt: &impl Abort, alloc: Global, op: ChainOp, first: Expr, second: Expr) -> Expr {
    let mut ops = List::new(alloc);
    ops.push(op).expect(rt, "memory");
    Expr::Chain(list(rt, alloc, first, second), ops)
}

fn call(rt: &impl Abort, alloc: Global, function: Fun, first: Expr, second: Expr) -> Expr {
    Expr::Apply(function, list(rt, alloc, first, second))
}

/// `name > 3`
fn is_high(rt: &impl Abort, alloc: Global, name: u32) -> Expr {
    let limit = boxed(rt, alloc, Expr::Const(Value::Int(3)));
    Expr::Relation(Rel::Greater, boxed(rt, alloc, Expr::Read(name)), limit)
}

/// `if condition then 1 else other`
fn choice(rt: &impl Abort, alloc: Global, condition: Expr, other: Expr) -> Expr {
    let mut conditions = List::new(alloc);
    conditions.push(condition).expect(rt, "memory");
    let mut branches = List::new(alloc);
    branches
        .push(Expr::Const(Value::Int(1)))
        .expect(rt, "memory");
    Expr::If(conditions, branches, boxed(rt, alloc, other))
}

/// What an expression is made of.
#[derive(Clone, Copy)]
enum Form {
    High(u32),
    Or(u32, u32),
    And(u32, u32),
    Quotient(u32, u32),
    SumWithQuotient(u32, u32),
    Choice(u32, u32),
    Not(u32),
    Previous(u32),
}

fn made(rt: &impl Abort, alloc: Global, what: Form) -> Expr {
    match what {
        Form::High(name) => is_high(rt, alloc, name),
        Form::Or(first, second) => chain(
            rt,
            alloc,
            ChainOp::Or,
            Expr::Read(first),
            is_high(rt, alloc, second),
        ),
        Form::And(first, second) => chain(
            rt,
            alloc,
            ChainOp::And,
            is_high(rt, alloc, first),
            Expr::Read(second),
        ),
        Form::Quotient(first, second) => call(
            rt,
            alloc,
            Fun::Div,
            Expr::Read(first),
            Expr::Read(second),
        ),
        Form::SumWithQuotient(first, second) => chain(
            rt,
            alloc,
            ChainOp::Plus,
            Expr::Read(first),
            call(rt, alloc, Fun::Div, Expr::Read(0), Expr::Read(second)),
        ),
        Form::Choice(condition, other) => {
            choice(rt, alloc, Expr::Read(condition), Expr::Read(other))
        }
        Form::Not(name) => Expr::Not(boxed(rt, alloc, Expr::Read(name))),
        Form::Previous(name) => Expr::Previous(name),
    }
}

const TRUE: Answer = Answer::Is(Value::Bool(true));

const DIVIDE: Answer = Answer::Fails(Fail::Divide);

/// What an expression gives: a part that has no value is not needed behind one that decides, and the leftmost failure
/// or lack of a value decides. A name that is not there has no value.
const ANSWERS: [(Form, Answer); 15] = [
    (Form::High(0), TRUE),
    (Form::High(1), Answer::Absent),
    (Form::High(9), Answer::Absent),
    (Form::High(2), Answer::Absent),
    (Form::Or(2, 1), TRUE),
    (Form::Or(1, 0), Answer::Absent),
    (Form::And(3, 1), Answer::Is(Value::Bool(false))),
    (Form::And(0, 1), Answer::Absent),
    (Form::Quotient(0, 3), DIVIDE),
    (Form::Quotient(1, 3), Answer::Absent),
    (Form::SumWithQuotient(0, 3), DIVIDE),
    (Form::SumWithQuotient(1, 3), Answer::Absent),
    (Form::Choice(2, 1), Answer::Is(Value::Int(1))),
    (Form::Not(0), Answer::Absent),
    (Form::Previous(0), Answer::Absent),
];

#[test]
fn answers_over_values_that_may_lack(rt: HostRuntime) {
    for (what, wanted) in &ANSWERS {
        let expr = made(&rt, rt.alloc(), *what);
        assert!(rt; answer(&expr, &NOW) == *wanted);
    }
}

#[test]
fn copies_expressions(rt: HostRuntime) {
    for (what, wanted) in &ANSWERS {
        let expr = made(&rt, rt.alloc(), *what);
        let copy = copied_expr(rt.alloc(), &expr).expect(&rt, "memory");
        assert!(rt; answer(&copy, &NOW) == *wanted);
    }
}

/// The numbers of a clock's expression; the condition of an event is told by what it gives.
fn told(clock: &ClockExpr) -> (u32, u32, u32) {
    match clock {
        ClockExpr::Name(name) => (0, *name, 0),
        ClockExpr::Inferred => (1, 0, 0),
        ClockExpr::Rational(counter, resolution) => (2, *counter, *resolution),
        ClockExpr::Event(condition) => (3, u32::from(answer(condition.get(), &NOW) == TRUE), 0),
        ClockExpr::Convert(Conversion::Sub(factor), name) => (4, *factor, *name),
        ClockExpr::Convert(_, name) => (5, 0, *name),
    }
}

#[test]
fn copies_clocks(rt: HostRuntime) {
    let event = ClockExpr::Event(boxed(&rt, rt.alloc(), is_high(&rt, rt.alloc(), 0)));
    let clocks = [
        (ClockExpr::Name(7), (0, 7, 0)),
        (ClockExpr::Inferred, (1, 0, 0)),
        (ClockExpr::Rational(3, 2), (2, 3, 2)),
        (event, (3, 1, 0)),
        (ClockExpr::Convert(Conversion::Sub(5), 6), (4, 5, 6)),
    ];
    for (clock, wanted) in &clocks {
        let copy = copied_clock(rt.alloc(), clock).expect(&rt, "memory");
        assert!(rt; told(&copy) == *wanted);
    }
}
