ghost use Rattle.std.specs.Prelude.{◌≡◌, ◌^◌, true, [], ◌∷◌};
ghost use Rattle.std.specs.Int.{◌∣◌};
ghost use Rattle.rational_time.specs.Fraction.{ArePartsBelow};
ghost use Rattle.rational_time.specs.Multiple.{AllDivide};
ghost use Rattle.flat_model.specs.Runnable.{AreClocks, CanRun, denominators};

use eq_order::kinds::Order;
use eq_order::{OrderCode, OrderEnd, Use, answer_law, order, order_law};
use flat_model::{
    Clock, Clocking, Conversion, Equation, Expr, FlatModel, FlatName, NameKind, Place,
};
use rational_time::{Ratio, make};
use sqlite_items::Boxed;
use std::alloc::Global;
use std::process::Abort;
use sync_values::{ChainOp, List, Text, Value};

/// A side of an equation. A shift is by half an interval of one second, and the name `late` is shifted so.
#[derive(Clone, Copy)]
pub(crate) enum Side {
    Name(u32),
    Number(i64),
    Previous(u32),
    Held(u32),
    Shifted(u32),
    Sampled(u32),
    Doubled(u32),
    Sum(u32, u32),
    SumWithShifted(u32, u32),
    /// `10 - (x + 3)`
    TakenFromTen(u32),
}

use Side::{
    Doubled, Held, Name, Number, Previous, Sampled, Shifted, Sum, SumWithShifted, TakenFromTen,
};

fn boxed(rt: &impl Abort, alloc: Global, expr: Expr) -> Boxed<Expr> {
    Boxed::new(alloc, expr).expect(rt, "memory")
}

fn chain(rt: &impl Abort, alloc: Global, op: ChainOp, first: Expr, second: Expr) -> Expr {
    let mut parts = List::new(alloc);
    parts.push(first).expect(rt, "memory");
    parts.push(second).expect(rt, "memory");
    let mut ops = List::new(alloc);
    ops.push(op).expect(rt, "memory");
    Expr::Chain(parts, ops)
}

fn shifted(name: u32) -> Expr {
    Expr::Convert(Conversion::Shift(1, 2), name)
}

fn number(value: i64) -> Expr {
    Expr::Const(Value::Int(value))
}

pub(crate) fn expr(rt: &impl Abort, alloc: Global, side: Side) -> Expr {
    match side {
        Name(name) => Expr::Read(name),
        Number(value) => number(value),
        Previous(name) => Expr::Previous(name),
        Held(name) => Expr::Hold(name),
        Shifted(name) => shifted(name),
        Sampled(name) => Expr::Sample(boxed(rt, alloc, Expr::Read(name)), None),
        Doubled(name) => chain(rt, alloc, ChainOp::Times, number(2), Expr::Read(name)),
        Sum(a, b) => chain(rt, alloc, ChainOp::Plus, Expr::Read(a), Expr::Read(b)),
        SumWithShifted(a, b) => chain(rt, alloc, ChainOp::Plus, Expr::Read(a), shifted(b)),
        TakenFromTen(name) => {
            let sum = chain(rt, alloc, ChainOp::Plus, Expr::Read(name), number(3));
            chain(rt, alloc, ChainOp::Minus, number(10), sum)
        }
    }
}

/// Equations between the names `a`, `b` and `c`, of which so many stand in the model, each with its class.
#[derive(Clone, Copy)]
struct Case {
    names: usize,
    classes: [Option<u32>; 3],
    equations: [Option<(Side, Side, Option<u32>)>; 3],
    wanted: Wanted,
}

/// The uses in their order, each an equation, its name and whether that stands on the left; or the broken rule.
#[derive(Clone, Copy)]
enum Wanted {
    Uses([Option<(u32, u32, bool)>; 3]),
    AtEquation(OrderCode, u32),
    AtName(OrderCode, u8),
}

use Wanted::{AtEquation, AtName, Uses};

const NONE: Option<u32> = None;

/// Classes 0 and 1 tick each second, from 0 and from 1/2 on; classes 2 to 4 at the rising moments 2i, 2i + 1 and 3i of
/// one site.
fn clocks(rt: &impl Abort, alloc: Global) -> List<Clock> {
    let mut clocks = List::new(alloc);
    for start in [make(0, 1), make(1, 2)] {
        let clock = Clock::Periodic {
            period: make(1, 1),
            start,
        };
        clocks.push(clock).expect(rt, "memory");
    }
    for (factor, shift) in [(2, 0), (2, 1), (3, 0)] {
        let clock = Clock::Event {
            site: 0,
            factor,
            shift,
        };
        clocks.push(clock).expect(rt, "memory");
    }
    clocks
}

fn flat_model(rt: &impl Abort, alloc: Global, case: &Case) -> FlatModel {
    let mut names = List::new(alloc);
    for text in ["a", "b", "c"] {
        if names.len() < case.names {
            let name = FlatName {
                text: Text::from_bytes(alloc, text.as_bytes()).expect(rt, "memory"),
                kind: NameKind::Integer,
                input: false,
                start: Value::Int(0),
            };
            names.push(name).expect(rt, "memory");
        }
    }
    let mut equations = List::new(alloc);
    for sides in &case.equations {
        if let Some((left, right, _)) = sides {
            let equation = Equation::Valued {
                left: expr(rt, alloc, *left),
                right: expr(rt, alloc, *right),
                clause: None,
            };
            equations.push(equation).expect(rt, "memory");
        }
    }
    FlatModel {
        names,
        equations,
        clauses: List::new(alloc),
    }
}

fn clocking(rt: &impl Abort, alloc: Global, case: &Case) -> Clocking {
    let mut of_name = List::new(alloc);
    for class in &case.classes {
        of_name.push(*class).expect(rt, "memory");
    }
    let mut of_equation = List::new(alloc);
    for sides in &case.equations {
        if let Some((_, _, class)) = sides {
            of_equation.push(*class).expect(rt, "memory");
        }
    }
    let mut sites = List::new(alloc);
    sites
        .push(Expr::Const(Value::Bool(true)))
        .expect(rt, "memory");
    Clocking {
        of_name,
        of_equation,
        clocks: clocks(rt, alloc),
        partitions: List::new(alloc),
        sites,
    }
}

fn is_small(value: Ratio) -> bool
    ensures { result ≡ true → ArePartsBelow (2 ^ 40) value × (value.den ∣ 60) }
{
    value.num() < 1000 && value.den() < 1000 && 60 % value.den() == 0
}

fn can_run(sites: &[Expr], clock: Clock) -> bool
    ensures { result ≡ true → CanRun sites.now clock × AllDivide (denominators (clock ∷ [])) 60 }
{
    match clock {
        Clock::Periodic { period, start } => 0 < period.num()
            && is_small(period)
            && is_small(start),
        Clock::Event {
            site,
            factor,
            shift,
        } => (site as usize) < sites.len() && 0 < factor && factor < 1000 && shift < 1000,
    }
}

fn are_clocks(clocking: &Clocking) -> bool
    ensures { result ≡ true → AreClocks clocking.now }
{
    for clock in clocking.clocks.as_slice() {
        if !can_run(clocking.sites.as_slice(), *clock) {
            return false;
        }
    }
    true
}

fn are_uses(order: &[Use], wanted: &[Option<(u32, u32, bool)>; 3]) -> bool {
    for (i, wanted) in wanted.iter().enumerate() {
        match (order.get(i), wanted) {
            (Some(entry), Some((equation, name, left))) => {
                if entry.equation != *equation || entry.name != *name || entry.spine.left != *left {
                    return false;
                }
            }
            (None, None) => {}
            _ => return false,
        }
    }
    order.len() <= 3
}

fn is_wanted(answer: &Result<Order, OrderEnd>, wanted: &Wanted) -> bool {
    match answer {
        Ok(order) => match wanted {
            Uses(uses) => are_uses(order.as_slice(), uses),
            _ => false,
        },
        Err(OrderEnd::Fault { code, place }) => match (place, wanted) {
            (Place::Equation(at), AtEquation(other, equation)) => code == other && at == equation,
            (Place::Name(text), AtName(other, name)) => code == other
                && text.as_bytes().first() == Some(name),
            _ => false,
        },
        Err(OrderEnd::NoMemory) => false,
    }
}

/// Names of no class, equations of none.
const fn unclocked(
    names: usize,
    equations: [Option<(Side, Side, Option<u32>)>; 3],
    wanted: Wanted,
) -> Case {
    Case {
        names,
        classes: [NONE; 3],
        equations,
        wanted,
    }
}

fn assert_case(rt: &impl Abort, alloc: Global, case: &Case) {
    let flat = flat_model(rt, alloc, case);
    let clocking = clocking(rt, alloc, case);
    assert!(rt; flat.equations.len() <= 3);
    assert!(rt; are_clocks(&clocking));
    assert!(rt; is_wanted(&order(alloc, &flat, &clocking), &case.wanted));
}

const SECONDS: Option<u32> = Some(0);

const HALVES: Option<u32> = Some(1);

#[test]
fn orders_unclocked_equations(rt: HostRuntime) {
    let cases = [
        // The first equation in flat order that can reach a name.
        unclocked(
            2,
            [
                Some((Name(0), Number(1), NONE)),
                Some((Number(2), Name(1), NONE)),
                None,
            ],
            Uses([Some((0, 0, true)), Some((1, 1, false)), None]),
        ),
        // A chain given backwards.
        unclocked(
            3,
            [
                Some((Name(0), Name(1), NONE)),
                Some((Name(1), Name(2), NONE)),
                Some((Name(2), Number(1), NONE)),
            ],
            Uses([Some((2, 2, true)), Some((1, 1, true)), Some((0, 0, true))]),
        ),
        // A connection gives `first = other`, and the others stand on the right.
        unclocked(
            3,
            [
                Some((Name(0), Number(4), NONE)),
                Some((Name(0), Name(1), NONE)),
                Some((Name(0), Name(2), NONE)),
            ],
            Uses([Some((0, 0, true)), Some((1, 1, false)), Some((2, 2, false))]),
        ),
        // A sampled name is not read now.
        unclocked(
            2,
            [
                Some((Name(0), Sampled(1), NONE)),
                Some((Name(1), Name(0), NONE)),
                None,
            ],
            Uses([Some((0, 0, true)), Some((1, 1, true)), None]),
        ),
        // One equation too many.
        unclocked(
            2,
            [
                Some((Name(0), Number(2), NONE)),
                Some((Name(1), Number(3), NONE)),
                Some((Name(0), Name(1), NONE)),
            ],
            AtEquation(OrderCode::Q1, 2),
        ),
        unclocked(
            1,
            [Some((Doubled(0), Number(6), NONE)), None, None],
            AtEquation(OrderCode::Q3, 0),
        ),
        unclocked(
            1,
            [Some((Sum(0, 0), Number(6), NONE)), None, None],
            AtEquation(OrderCode::Q3, 0),
        ),
        unclocked(
            1,
            [Some((Name(0), Held(0), NONE)), None, None],
            AtEquation(OrderCode::Q3, 0),
        ),
        // Stuck comes before too few.
        unclocked(
            3,
            [Some((Doubled(0), Number(6), NONE)), None, None],
            AtEquation(OrderCode::Q3, 0),
        ),
        unclocked(1, [None, None, None], AtName(OrderCode::Q2, b'a')),
        unclocked(
            3,
            [
                Some((Name(2), Number(1), NONE)),
                Some((Name(0), Name(1), NONE)),
                None,
            ],
            AtName(OrderCode::Q2, b'a'),
        ),
        // As many equations as names.
        unclocked(
            2,
            [
                Some((Name(0), Name(1), NONE)),
                Some((Name(1), Name(0), NONE)),
                None,
            ],
            AtEquation(OrderCode::Q4, 0),
        ),
    ];
    for case in &cases {
        assert_case(&rt, rt.alloc(), case);
    }
}

/// Two names of two classes whose equations convert each other.
fn crossed(first: u32, second: u32, wanted: Wanted) -> Case {
    Case {
        names: 2,
        classes: [Some(first), Some(second), None],
        equations: [
            Some((Name(0), Shifted(1), Some(first))),
            Some((Name(1), Shifted(0), Some(second))),
            None,
        ],
        wanted,
    }
}

#[test]
fn orders_clocked_equations(rt: HostRuntime) {
    let both = Uses([Some((0, 0, true)), Some((1, 1, true)), None]);
    let cases = [
        // `10 - (a + 3) = previous(a)`
        Case {
            names: 1,
            classes: [SECONDS, NONE, NONE],
            equations: [Some((TakenFromTen(0), Previous(0), SECONDS)), None, None],
            wanted: Uses([Some((0, 0, true)), None, None]),
        },
        // Clocks that never meet make no loop.
        crossed(0, 1, both),
        crossed(1, 1, AtEquation(OrderCode::Q4, 0)),
        // Event clocks of one site by their rising numbers.
        crossed(2, 3, both),
        crossed(2, 4, AtEquation(OrderCode::Q4, 0)),
        crossed(3, 4, AtEquation(OrderCode::Q4, 0)),
        // A clock in seconds and one of a site have no axis in common.
        crossed(0, 2, both),
        // A name under a conversion beside its bare stand.
        Case {
            names: 1,
            classes: [HALVES, NONE, NONE],
            equations: [Some((SumWithShifted(0, 0), Number(1), HALVES)), None, None],
            wanted: AtEquation(OrderCode::Q3, 0),
        },
    ];
    for case in &cases {
        assert_case(&rt, rt.alloc(), case);
    }
}

#[test]
fn laws_hold() {
    order_law();
    answer_law();
}
