use crate::fine::are_clocks;
use crate::models::Side::{
    BackPlusOne, Doubled, Held, Name, NoClock, Number, Previous, Sampled, Shifted, Sum,
    TakenFromTen,
};
use crate::models::Ticks::{Risings, Seconds};
use crate::models::{Model, Side, Ticks, clocking, flat_model};
use eq_order::kinds::Order;
use eq_order::{OrderCode, OrderEnd, Use, order};
use flat_model::Place;
use moment_order::{Stage, one_division_law, pure_law, stages, stages_law};
use std::alloc::Global;
use std::process::Abort;
use sync_values::List;

/// What a model has: its uses in their order, each an equation, its name and whether that stands on the left, with the
/// stage of each; or a broken rule.
#[derive(Clone, Copy)]
enum Wanted {
    Uses(&'static [(u32, u32, bool, Stage)]),
    AtEquation(OrderCode, u32),
    AtName(OrderCode, u8),
}

use Stage::{Partition, Pure, Waiting};
use Wanted::{AtEquation, AtName, Uses};

fn are_uses(order: &[Use], wanted: &[(u32, u32, bool, Stage)]) -> bool {
    for (i, (equation, name, left, _)) in wanted.iter().enumerate() {
        let Some(entry) = order.get(i) else {
            return false;
        };
        if entry.equation != *equation || entry.name != *name || entry.spine.left != *left {
            return false;
        }
    }
    order.len() == wanted.len()
}

fn are_stages(stages: &[Stage], wanted: &[(u32, u32, bool, Stage)]) -> bool {
    for (i, (_, _, _, stage)) in wanted.iter().enumerate() {
        if stages.get(i) != Some(stage) {
            return false;
        }
    }
    stages.len() == wanted.len()
}

fn is_end(answer: &Result<Order, OrderEnd>, wanted: &Wanted) -> bool {
    match answer {
        Err(OrderEnd::Fault { code, place }) => match (place, wanted) {
            (Place::Equation(at), AtEquation(other, equation)) => code == other && at == equation,
            (Place::Name(text), AtName(other, name)) => code == other
                && text.as_bytes().first() == Some(name),
            _ => false,
        },
        _ => false,
    }
}

fn assert_case(rt: &impl Abort, alloc: Global, model: &Model, wanted: &Wanted) {
    let flat = flat_model(rt, alloc, model);
    let clocking = clocking(rt, alloc, model);
    assert!(rt; flat.equations.len() <= 5);
    assert!(rt; 0 < model.grid && model.grid < 1 << 40);
    assert!(rt; are_clocks(&clocking, model.grid));
    let answer = order(alloc, &flat, &clocking);
    match wanted {
        Uses(uses) => {
            let order = answer.expect(rt, "an order");
            assert!(rt; are_uses(order.as_slice(), uses));
            let stages: List<Stage> = stages(alloc, &flat, &clocking, order.as_slice()).expect(
                rt, "memory",
            );
            assert!(rt; are_stages(stages.as_slice(), uses));
        }
        _ => assert!(rt; is_end(&answer, wanted)),
    }
}

const NONE: Option<u32> = None;

const FIRST: Option<u32> = Some(0);

const SECOND: Option<u32> = Some(1);

/// Each second from 0 on.
const SECONDS: (Ticks, u32) = (Seconds(1, 1, 0, 1), 0);

/// Each second from 1/2 on.
const HALVES: (Ticks, u32) = (Seconds(1, 1, 1, 2), 0);

/// The first name is converted from the second, and the second from the first, each on its own clock.
const CROSSED: &[(Side, Side, Option<u32>)] = &[
    (Name(0), NoClock(1), FIRST),
    (Name(1), NoClock(0), SECOND),
];

fn crossed(clocks: &'static [(Ticks, u32)], grid: u64) -> Model {
    Model {
        names: &[FIRST, SECOND],
        equations: CROSSED,
        clocks,
        grid,
    }
}

const MET: Wanted = AtEquation(OrderCode::Q4, 0);

const APART: Wanted = Uses(&[(0, 0, true, Partition(0)), (1, 1, true, Partition(0))]);

/// Whether two clocks share an instant, and so make a loop of two conversions.
const MEETINGS: [(&[(Ticks, u32)], u64, Wanted); 10] = [
    // At 0 and 1/2 of each second.
    (&[SECONDS, HALVES], 2, APART),
    (&[HALVES, HALVES], 2, MET),
    // First at 1252/2003 seconds, tick 1252 of the one and tick 1257 of the other.
    (
        &[
            (Seconds(1, 2003, 0, 1), 0),
            (Seconds(1, 2011, 1, 4_028_033), 0),
        ],
        4_028_033,
        MET,
    ),
    // 2006 i is even, and 1003 + 2002 j is odd.
    (
        &[(Seconds(2, 1001, 0, 1), 0), (Seconds(2, 1003, 1, 1001), 0)],
        1_004_003,
        APART,
    ),
    // First at rising 3020524, tick 1508 of the one and tick 1502 of the other.
    (&[(Risings(2003, 0), 0), (Risings(2011, 2), 0)], 1, MET),
    (&[(Risings(6, 0), 0), (Risings(4, 1), 0)], 1, APART),
    (&[(Risings(6, 0), 0), (Risings(4, 2), 0)], 1, MET),
    // The first tick of the one is later than that of the other.
    (&[(Risings(1, 4095), 0), (Risings(1, 0), 0)], 1, MET),
    // First at 8 seconds.
    (
        &[(Seconds(4, 1, 0, 1), 0), (Seconds(5, 1, 3, 1), 0)],
        1,
        MET,
    ),
    // 4 i is even, and 6 j + 3 is odd.
    (
        &[(Seconds(4, 1, 0, 1), 0), (Seconds(6, 1, 3, 1), 0)],
        1,
        APART,
    ),
];

#[test]
fn counts_conversions_where_clocks_meet(rt: HostRuntime) {
    for (clocks, grid, wanted) in &MEETINGS {
        assert_case(&rt, rt.alloc(), &crossed(clocks, *grid), wanted);
    }
}

/// Models on clocks in seconds.
const CLOCKED: [(Model, Wanted); 6] = [
    // `u = backSample(y, 1, 2) + 1` and `y = shiftSample(u, 1, 2)`.
    (
        Model {
            names: &[FIRST, SECOND],
            equations: &[
                (Name(0), BackPlusOne(1), FIRST),
                (Name(1), Shifted(0), SECOND),
            ],
            clocks: &[SECONDS, HALVES],
            grid: 2,
        },
        APART,
    ),
    // The same with both clocks the same.
    (
        Model {
            names: &[FIRST, FIRST],
            equations: &[
                (Name(0), BackPlusOne(1), FIRST),
                (Name(1), Shifted(0), FIRST),
            ],
            clocks: &[SECONDS],
            grid: 1,
        },
        MET,
    ),
    // `a = b`, `a = c` and `a = 4` on one clock.
    (
        Model {
            names: &[FIRST, FIRST, FIRST],
            equations: &[
                (Name(0), Number(4), FIRST),
                (Name(0), Name(1), FIRST),
                (Name(0), Name(2), FIRST),
            ],
            clocks: &[SECONDS],
            grid: 1,
        },
        Uses(&[
            (0, 0, true, Partition(0)),
            (1, 1, false, Partition(0)),
            (2, 2, false, Partition(0)),
        ]),
    ),
    // `10 - (a + 3) = previous(a)`.
    (
        Model {
            names: &[FIRST],
            equations: &[(TakenFromTen(0), Previous(0), FIRST)],
            clocks: &[SECONDS],
            grid: 1,
        },
        Uses(&[(0, 0, true, Partition(0))]),
    ),
    // A name under a conversion, beside its bare stand.
    (
        Model {
            names: &[FIRST],
            equations: &[(Name(0), NoClock(0), FIRST)],
            clocks: &[SECONDS],
            grid: 1,
        },
        AtEquation(OrderCode::Q3, 0),
    ),
    // Two clocks of two base partitions, and unclocked names before and behind them: d rests on the clock of b.
    (
        Model {
            names: &[NONE, FIRST, SECOND, NONE, NONE],
            equations: &[
                (Name(3), Held(1), NONE),
                (Name(4), Sum(3, 0), NONE),
                (Name(2), Sampled(4), SECOND),
                (Name(1), Sampled(0), FIRST),
                (Name(0), Number(1), NONE),
            ],
            clocks: &[(Seconds(1, 1, 0, 1), 1), (Seconds(1, 1, 0, 1), 0)],
            grid: 1,
        },
        Uses(&[
            (2, 2, true, Partition(0)),
            (3, 1, true, Partition(1)),
            (0, 3, true, Waiting),
            (4, 0, true, Pure),
            (1, 4, true, Waiting),
        ]),
    ),
];

#[test]
fn orders_clocked_equations(rt: HostRuntime) {
    for (model, wanted) in &CLOCKED {
        assert_case(&rt, rt.alloc(), model, wanted);
    }
}

/// Models without clocks.
const UNCLOCKED: [(&[Option<u32>], &[(Side, Side, Option<u32>)], Wanted); 8] = [
    // A chain of pure names, given backwards.
    (
        &[NONE, NONE, NONE],
        &[
            (Name(0), Sum(1, 2), NONE),
            (Name(1), Doubled(2), NONE),
            (Name(2), Number(1), NONE),
        ],
        Uses(&[(2, 2, true, Pure), (1, 1, true, Pure), (0, 0, true, Pure)]),
    ),
    // An equation too many.
    (
        &[NONE, NONE],
        &[
            (Name(0), Number(2), NONE),
            (Name(1), Number(3), NONE),
            (Name(0), Name(1), NONE),
        ],
        AtEquation(OrderCode::Q1, 2),
    ),
    (
        &[NONE],
        &[(Doubled(0), Number(6), NONE)],
        AtEquation(OrderCode::Q3, 0),
    ),
    (&[NONE], &[], AtName(OrderCode::Q2, b'a')),
    // As many equations that wait as names: a loop, though a third equation waits for nothing.
    (
        &[NONE, NONE, NONE],
        &[
            (Name(2), Number(1), NONE),
            (Name(0), Name(1), NONE),
            (Name(1), Name(0), NONE),
        ],
        AtEquation(OrderCode::Q4, 1),
    ),
    // One fewer: the names outnumber the equations.
    (
        &[NONE, NONE, NONE],
        &[(Name(2), Number(1), NONE), (Name(0), Name(1), NONE)],
        AtName(OrderCode::Q2, b'a'),
    ),
    // An equation with one unreached name comes first, even where names outnumber equations.
    (
        &[NONE, NONE, NONE],
        &[(Name(1), Name(2), NONE), (Doubled(0), Number(6), NONE)],
        AtEquation(OrderCode::Q3, 1),
    ),
    // A name that is held in the equation of its own.
    (
        &[NONE],
        &[(Name(0), Held(0), NONE)],
        AtEquation(OrderCode::Q3, 0),
    ),
];

#[test]
fn orders_unclocked_equations(rt: HostRuntime) {
    for (names, equations, wanted) in &UNCLOCKED {
        let model = Model {
            names,
            equations,
            clocks: &[],
            grid: 1,
        };
        assert_case(&rt, rt.alloc(), &model, wanted);
    }
}

#[test]
fn laws_hold() {
    one_division_law();
    pure_law();
    stages_law();
}
