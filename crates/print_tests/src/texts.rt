use flat_model::{
    Clock, ClockExpr, Clocking, Conversion, Equation, Expr, FlatModel, FlatName, Fun, NameKind,
};
use rational_time::make;
use sqlite_items::Boxed;
use std::alloc::Global;
use std::process::Abort;
use sync_values::{ChainOp, List, Rel, Text, Value};
use trace_print::{clocks_text, flat_text};

/// The names of all cases: the Integer x, the Boolean b, the inputs u and p.v, and the Clock c.
const X: u32 = 0;

const B: u32 = 1;

const U: u32 = 2;

const V: u32 = 3;

const C: u32 = 4;

/// The text, the kind, whether it is an input, and the start of each name.
static NAMES: [(&'static [u8], NameKind, bool, Value); 5] = [
    (b"x", NameKind::Integer, false, Value::Int(-5)),
    (b"b", NameKind::Boolean, false, Value::Bool(true)),
    (b"u", NameKind::Integer, true, Value::Int(0)),
    (b"p.v", NameKind::Boolean, true, Value::Bool(false)),
    (b"c", NameKind::Clock, false, Value::Int(0)),
];

fn names(rt: &impl Abort, alloc: Global) -> List<FlatName> {
    let mut names = List::new(alloc);
    for row in &NAMES {
        let text = Text::from_bytes(alloc, row.0).expect(rt, "memory");
        let name = FlatName {
            text,
            kind: row.1,
            input: row.2,
            start: row.3,
        };
        names.push(name).expect(rt, "memory");
    }
    names
}

fn boxed(rt: &impl Abort, alloc: Global, expr: Expr) -> Boxed<Expr> {
    Boxed::new(alloc, expr).expect(rt, "memory")
}

/// Some of the names.
fn reads(rt: &impl Abort, alloc: Global, xs: &[u32]) -> List<Expr> {
    let mut parts = List::new(alloc);
    for x in xs {
        parts.push(Expr::Read(*x)).expect(rt, "memory");
    }
    parts
}

fn chain(rt: &impl Abort, alloc: Global, xs: &[u32], ops: &[ChainOp]) -> Expr {
    let mut copies = List::new(alloc);
    for op in ops {
        copies.push(*op).expect(rt, "memory");
    }
    Expr::Chain(reads(rt, alloc, xs), copies)
}

fn relation(rt: &impl Abort, alloc: Global, rel: Rel, value: Value) -> Expr {
    let left = boxed(rt, alloc, Expr::Read(X));
    Expr::Relation(rel, left, boxed(rt, alloc, Expr::Const(value)))
}

/// The choice of a name by names.
fn choice(rt: &impl Abort, alloc: Global, conditions: &[u32], branches: &[u32]) -> Expr {
    let conditions = reads(rt, alloc, conditions);
    let branches = reads(rt, alloc, branches);
    Expr::If(
        conditions,
        branches,
        boxed(rt, alloc, Expr::Const(Value::Int(7))),
    )
}

/// An equation for x, as it is printed behind its number.
fn printed(rt: &impl Abort, alloc: Global, right: Expr, want: &[u8]) {
    let mut equations = List::new(alloc);
    let equation = Equation::Valued {
        left: Expr::Read(X),
        right,
        clause: None,
    };
    equations.push(equation).expect(rt, "memory");
    let flat = FlatModel {
        names: names(rt, alloc),
        equations,
        clauses: List::new(alloc),
    };
    let text = flat_text(alloc, &flat).expect(rt, "memory");
    assert!(rt; text.as_slice().starts_with(HEAD));
    assert!(rt; text.as_slice().ends_with(want));
    assert_eq!(rt; text.len(), HEAD.len() + want.len());
}

/// The lines of the names, and the left side of the one equation.
const HEAD: &[u8] =
    b"var x Integer -5\nvar b Boolean true\nvar u Integer 0 input\nvar p.v Boolean false input\nvar c Clock\neq 1: x = ";

static CONSTANTS: [(Value, &'static [u8]); 3] = [
    (Value::Int(-3), b"-3\n"),
    (Value::Int(i64::MIN), b"-9223372036854775808\n"),
    (Value::Bool(true), b"true\n"),
];

/// Constants.
#[test]
fn a_constant_is_its_value(rt: HostRuntime) {
    let alloc = rt.alloc();
    for row in &CONSTANTS {
        printed(&rt, alloc, Expr::Const(row.0), row.1);
    }
}

/// Operators on one part.
#[test]
fn operators_on_one_part_stand_before_it(rt: HostRuntime) {
    let alloc = rt.alloc();
    let three = boxed(&rt, alloc, Expr::Const(Value::Int(3)));
    printed(&rt, alloc, Expr::Neg(three), b"(-3)\n");
    let b = boxed(&rt, alloc, Expr::Read(B));
    printed(&rt, alloc, Expr::Not(b), b"(not b)\n");
}

static CHAINS: [(&'static [u32], &'static [ChainOp], &'static [u8]); 4] = [
    (
        &[X, U, X],
        &[ChainOp::Plus, ChainOp::Minus],
        b"((x + u) - x)\n",
    ),
    (
        &[X, U, X, U],
        &[ChainOp::Times, ChainOp::Over, ChainOp::Times],
        b"(((x * u) / x) * u)\n",
    ),
    (&[B, V], &[ChainOp::And], b"(b and p.v)\n"),
    (
        &[B, V, B],
        &[ChainOp::Or, ChainOp::Or],
        b"((b or p.v) or b)\n",
    ),
];

/// Chains are grouped to the left.
#[test]
fn chains_are_grouped_to_the_left(rt: HostRuntime) {
    for row in &CHAINS {
        printed(&rt, rt.alloc(), chain(&rt, rt.alloc(), row.0, row.1), row.2);
    }
}

static RELATIONS: [(Rel, &'static [u8]); 6] = [
    (Rel::Less, b"(x < -1)\n"),
    (Rel::LessEq, b"(x <= -1)\n"),
    (Rel::Greater, b"(x > -1)\n"),
    (Rel::GreaterEq, b"(x >= -1)\n"),
    (Rel::Equal, b"(x == -1)\n"),
    (Rel::Unequal, b"(x <> -1)\n"),
];

/// The six relations.
#[test]
fn relations_have_their_signs(rt: HostRuntime) {
    for row in &RELATIONS {
        let expr = relation(&rt, rt.alloc(), row.0, Value::Int(-1));
        printed(&rt, rt.alloc(), expr, row.1);
    }
}

static CHOICES: [(&'static [u32], &'static [u32], &'static [u8]); 3] = [
    (&[B], &[X], b"(if b then x else 7)\n"),
    (
        &[B, V],
        &[X, U],
        b"(if b then x elseif p.v then u else 7)\n",
    ),
    (
        &[B, V, B],
        &[X, U, X],
        b"(if b then x elseif p.v then u elseif b then x else 7)\n",
    ),
];

/// Choices of one, two and three branches before `else`.
#[test]
fn choices_go_on_by_elseif(rt: HostRuntime) {
    for row in &CHOICES {
        let expr = choice(&rt, rt.alloc(), row.0, row.1);
        printed(&rt, rt.alloc(), expr, row.2);
    }
}

static FUNCTIONS: [(Fun, &'static [u32], &'static [u8]); 6] = [
    (Fun::Div, &[X, U], b"div(x, u)\n"),
    (Fun::Mod, &[X, U], b"mod(x, u)\n"),
    (Fun::Rem, &[X, U], b"rem(x, u)\n"),
    (Fun::Abs, &[X], b"abs(x)\n"),
    (Fun::Min, &[U, X], b"min(u, x)\n"),
    (Fun::Max, &[U, X], b"max(u, x)\n"),
];

/// The six functions.
#[test]
fn functions_have_their_names(rt: HostRuntime) {
    for row in &FUNCTIONS {
        let parts = reads(&rt, rt.alloc(), row.1);
        printed(&rt, rt.alloc(), Expr::Apply(row.0, parts), row.2);
    }
}

static FIRST_TICKS: [(Option<u32>, &'static [u8]); 2] = [
    (None, b"firstTick()\n"),
    (Some(X), b"firstTick(x)\n"),
];

static INTERVALS: [(Option<u32>, u32, &'static [u8]); 2] = [
    (None, 1000, b"integer((interval() * 1000))\n"),
    (Some(U), 1, b"integer((interval(u) * 1))\n"),
];

static CONVERSIONS: [(Conversion, &'static [u8]); 6] = [
    (Conversion::Sub(0), b"subSample(x, 0)\n"),
    (Conversion::Sub(10), b"subSample(x, 10)\n"),
    (Conversion::Super(2), b"superSample(x, 2)\n"),
    (Conversion::Shift(3, 1), b"shiftSample(x, 3, 1)\n"),
    (
        Conversion::Back(0, 2147483647),
        b"backSample(x, 0, 2147483647)\n",
    ),
    (Conversion::NoClock, b"noClock(x)\n"),
];

/// The operators of clocked names.
#[test]
fn clocked_operators_have_their_arguments(rt: HostRuntime) {
    let alloc = rt.alloc();
    printed(&rt, alloc, Expr::Previous(X), b"previous(x)\n");
    printed(&rt, alloc, Expr::Hold(X), b"hold(x)\n");
    for row in &FIRST_TICKS {
        printed(&rt, alloc, Expr::FirstTick(row.0), row.1);
    }
    for row in &INTERVALS {
        printed(&rt, alloc, Expr::IntervalTimes(row.0, row.1), row.2);
    }
    for row in &CONVERSIONS {
        printed(&rt, alloc, Expr::Convert(row.0, X), row.1);
    }
}

/// A sample of an expression, as it is printed.
fn sample_printed(rt: &impl Abort, alloc: Global, of: Expr, clock: Option<ClockExpr>, want: &[u8]) {
    let of = boxed(rt, alloc, of);
    printed(rt, alloc, Expr::Sample(of, clock), want);
}

/// Samples, with and without a clock.
#[test]
fn samples_have_a_clock_where_one_is_given(rt: HostRuntime) {
    let alloc = rt.alloc();
    sample_printed(&rt, alloc, Expr::Read(U), None, b"sample(u)\n");
    let clock = Some(ClockExpr::Inferred);
    sample_printed(&rt, alloc, Expr::Read(U), clock, b"sample(u, Clock())\n");
    let clock = Some(ClockExpr::Rational(1, 1000));
    sample_printed(
        &rt,
        alloc,
        Expr::Read(U),
        clock,
        b"sample(u, Clock(1, 1000))\n",
    );
    let sum = chain(&rt, alloc, &[U, U], &[ChainOp::Plus]);
    let clock = Some(ClockExpr::Convert(Conversion::Sub(2), C));
    sample_printed(
        &rt,
        alloc,
        sum,
        clock,
        b"sample((u + u), subSample(c, 2))\n",
    );
}

/// The clauses of `c` and of `x > 3`.
fn two_clauses(rt: &impl Abort, alloc: Global) -> List<ClockExpr> {
    let condition = relation(rt, alloc, Rel::Greater, Value::Int(3));
    let event = ClockExpr::Event(boxed(rt, alloc, condition));
    let mut clauses = List::new(alloc);
    clauses.push(ClockExpr::Name(C)).expect(rt, "memory");
    clauses.push(event).expect(rt, "memory");
    clauses
}

fn add_clocks(
    rt: &impl Abort,
    equations: &mut List<Equation>,
    left: ClockExpr,
    right: ClockExpr,
    clause: Option<u32>,
) {
    let equation = Equation::Clocks {
        left,
        right,
        clause,
    };
    equations.push(equation).expect(rt, "memory");
}

/// Equations outside of clauses and in each of two.
fn three_equations(rt: &impl Abort, alloc: Global) -> List<Equation> {
    let mut equations = List::new(alloc);
    let rational = ClockExpr::Rational(1, 1);
    add_clocks(rt, &mut equations, ClockExpr::Name(C), rational, None);
    let inferred = ClockExpr::Inferred;
    add_clocks(rt, &mut equations, inferred, ClockExpr::Name(C), Some(0));
    let equation = Equation::Valued {
        left: Expr::Read(B),
        right: Expr::Read(V),
        clause: Some(1),
    };
    equations.push(equation).expect(rt, "memory");
    equations
}

/// Equations between clocks, and equations in clauses.
#[test]
fn clauses_are_told_by_when(rt: HostRuntime) {
    let alloc = rt.alloc();
    let flat = FlatModel {
        names: names(&rt, alloc),
        equations: three_equations(&rt, alloc),
        clauses: two_clauses(&rt, alloc),
    };
    let text = flat_text(alloc, &flat).expect(&rt, "memory");
    assert_eq!(rt;
        text.as_slice(),
        b"var x Integer -5\nvar b Boolean true\nvar u Integer 0 input\nvar p.v Boolean false input\nvar c Clock\neq 1: c = Clock(1, 1)\neq 2 when c: Clock() = c\neq 3 when Clock((x > 3)): b = p.v\n".as_slice()
    );
}

/// A model without names and equations has an empty text.
#[test]
fn no_names_have_no_lines(rt: HostRuntime) {
    let alloc = rt.alloc();
    let flat = FlatModel {
        names: List::new(alloc),
        equations: List::new(alloc),
        clauses: List::new(alloc),
    };
    let text = flat_text(alloc, &flat).expect(&rt, "memory");
    assert_eq!(rt; text.len(), 0);
}

/// Periodic clocks of whole and of other periods and starts, and an event clock.
fn three_clocks(rt: &impl Abort, alloc: Global) -> List<Clock> {
    let mut clocks = List::new(alloc);
    let fast = Clock::Periodic {
        period: make(1, 1000),
        start: make(0, 1),
    };
    clocks.push(fast).expect(rt, "memory");
    let late = Clock::Periodic {
        period: make(3, 1),
        start: make(1, 2),
    };
    clocks.push(late).expect(rt, "memory");
    let event = Clock::Event {
        site: 1,
        factor: 10,
        shift: 4,
    };
    clocks.push(event).expect(rt, "memory");
    clocks
}

const CLASSES: [Option<u32>; 5] = [Some(0), Some(2), None, None, Some(1)];

fn clocking(rt: &impl Abort, alloc: Global) -> Clocking {
    let mut of_name = List::new(alloc);
    for class in &CLASSES {
        of_name.push(*class).expect(rt, "memory");
    }
    Clocking {
        of_name,
        of_equation: List::new(alloc),
        clocks: three_clocks(rt, alloc),
        partitions: List::new(alloc),
        sites: List::new(alloc),
    }
}

/// Unclocked names, and names of each kind of clock.
#[test]
fn clocks_are_told_by_their_kind(rt: HostRuntime) {
    let alloc = rt.alloc();
    let flat = FlatModel {
        names: names(&rt, alloc),
        equations: List::new(alloc),
        clauses: List::new(alloc),
    };
    let clocking = clocking(&rt, alloc);
    let text = clocks_text(alloc, &flat, &clocking).expect(&rt, "memory");
    assert_eq!(rt;
        text.as_slice(),
        b"x every 1/1000 from 0\nb event 2 factor 10 shift 4\nu unclocked\np.v unclocked\nc every 3 from 1/2\n".as_slice()
    );
}
