//! Small models and their clocks.
use flat_model::{Clock, Clocking, Conversion, Equation, Expr, FlatModel, FlatName, NameKind};
use rational_time::make;
use sqlite_items::Boxed;
use std::alloc::Global;
use std::process::Abort;
use sync_values::{ChainOp, List, Rel, Text, Value};

/// A side of an equation between names that are told by their numbers.
#[derive(Clone, Copy)]
pub(crate) enum Side {
    Name(u32),
    Number(i64),
    Previous(u32),
    Held(u32),
    Sampled(u32),
    /// Half an interval later.
    Shifted(u32),
    /// 1 more than the value half an interval earlier.
    BackPlusOne(u32),
    NoClock(u32),
    Doubled(u32),
    Sum(u32, u32),
    /// `10 - (x + 3)`
    TakenFromTen(u32),
    /// `x > 0`
    IsPositive(u32),
    /// `-x`
    Negated(u32),
    /// `not x`
    Inverted(u32),
}

/// A clock with the parts of its period and of its start in seconds, or one of the first site with its factor and shift.
#[derive(Clone, Copy)]
pub(crate) enum Ticks {
    Seconds(u64, u64, u64, u64),
    Risings(u64, u64),
}

/// The class of each name; the sides of each equation, with its class; the clock of each class, with its base partition;
/// and a number of which the clocks in seconds are parts.
#[derive(Clone, Copy)]
pub(crate) struct Model {
    pub(crate) names: &'static [Option<u32>],
    pub(crate) equations: &'static [(Side, Side, Option<u32>)],
    pub(crate) clocks: &'static [(Ticks, u32)],
    pub(crate) grid: u64,
}

const NAMES: [&str; 5] = ["a", "b", "c", "d", "e"];

fn boxed(rt: &impl Abort, alloc: Global, expr: Expr) -> Boxed<Expr> {
    Boxed::new(alloc, expr).expect(rt, "memory")
}

fn chain(rt: &impl Abort, alloc: Global, op: ChainOp, first: Expr, second: Expr) -> Expr {
    let mut parts = List::new(alloc);
    parts.push(first).expect(rt, "memory");
    parts.push(second).expect(rt, "memory");
    let mut ops = List::new(alloc);
    ops.push(op).expect(rt, "memory");
    Expr::Chain(parts, ops)
}

fn number(value: i64) -> Expr {
    Expr::Const(Value::Int(value))
}

fn expr(rt: &impl Abort, alloc: Global, side: Side) -> Expr {
    match side {
        Side::Name(name) => Expr::Read(name),
        Side::Number(value) => number(value),
        Side::Previous(name) => Expr::Previous(name),
        Side::Held(name) => Expr::Hold(name),
        Side::Sampled(name) => Expr::Sample(boxed(rt, alloc, Expr::Read(name)), None),
        Side::Shifted(name) => Expr::Convert(Conversion::Shift(1, 2), name),
        Side::BackPlusOne(name) => chain(
            rt,
            alloc,
            ChainOp::Plus,
            Expr::Convert(Conversion::Back(1, 2), name),
            number(1),
        ),
        Side::NoClock(name) => Expr::Convert(Conversion::NoClock, name),
        Side::Doubled(name) => chain(rt, alloc, ChainOp::Times, number(2), Expr::Read(name)),
        Side::Sum(a, b) => chain(rt, alloc, ChainOp::Plus, Expr::Read(a), Expr::Read(b)),
        Side::TakenFromTen(name) => {
            let sum = chain(rt, alloc, ChainOp::Plus, Expr::Read(name), number(3));
            chain(rt, alloc, ChainOp::Minus, number(10), sum)
        }
        Side::IsPositive(name) => {
            let zero = boxed(rt, alloc, number(0));
            Expr::Relation(Rel::Greater, boxed(rt, alloc, Expr::Read(name)), zero)
        }
        Side::Negated(name) => Expr::Neg(boxed(rt, alloc, Expr::Read(name))),
        Side::Inverted(name) => Expr::Not(boxed(rt, alloc, Expr::Read(name))),
    }
}

/// The model with Integers as names.
pub(crate) fn flat_model(rt: &impl Abort, alloc: Global, model: &Model) -> FlatModel {
    flat_model_of(rt, alloc, NameKind::Integer, Value::Int(0), model)
}

/// The model with names of a kind that start with a value.
pub(crate) fn flat_model_of(
    rt: &impl Abort,
    alloc: Global,
    kind: NameKind,
    start: Value,
    model: &Model,
) -> FlatModel {
    let mut names = List::new(alloc);
    for text in &NAMES {
        if names.len() < model.names.len() {
            let name = FlatName {
                text: Text::from_bytes(alloc, text.as_bytes()).expect(rt, "memory"),
                kind,
                input: false,
                start,
            };
            names.push(name).expect(rt, "memory");
        }
    }
    let mut equations = List::new(alloc);
    for (left, right, _) in model.equations {
        let equation = Equation::Valued {
            left: expr(rt, alloc, *left),
            right: expr(rt, alloc, *right),
            clause: None,
        };
        equations.push(equation).expect(rt, "memory");
    }
    FlatModel {
        names,
        equations,
        clauses: List::new(alloc),
    }
}

fn clock(rt: &impl Abort, ticks: Ticks) -> Clock {
    match ticks {
        Ticks::Seconds(period, of, start, from) => {
            assert!(rt; 0 < of && 0 < from);
            Clock::Periodic {
                period: make(period, of),
                start: make(start, from),
            }
        }
        Ticks::Risings(factor, shift) => Clock::Event {
            site: 0,
            factor,
            shift,
        },
    }
}

/// The clocking of a model, with one site, where name 0 is greater than 0.
pub(crate) fn clocking(rt: &impl Abort, alloc: Global, model: &Model) -> Clocking {
    let mut of_name = List::new(alloc);
    for class in model.names {
        of_name.push(*class).expect(rt, "memory");
    }
    let mut of_equation = List::new(alloc);
    for (_, _, class) in model.equations {
        of_equation.push(*class).expect(rt, "memory");
    }
    let mut clocks = List::new(alloc);
    let mut partitions = List::new(alloc);
    for (ticks, partition) in model.clocks {
        clocks.push(clock(rt, *ticks)).expect(rt, "memory");
        partitions.push(*partition).expect(rt, "memory");
    }
    let mut sites = List::new(alloc);
    sites
        .push(expr(rt, alloc, Side::IsPositive(0)))
        .expect(rt, "memory");
    Clocking {
        of_name,
        of_equation,
        clocks,
        partitions,
        sites,
    }
}
