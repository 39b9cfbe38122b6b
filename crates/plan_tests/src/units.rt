ghost use Rattle.std.specs.Prelude.{◌≡◌, length};
ghost use Rattle.tick_plan.specs.Seen.{grid_seen};
ghost use Rattle.tick_plan.specs.SeenFractions.{fraction_seen};

use crate::given::{Form, Parts};
use crate::planning::{
    assert_for, assert_number, assert_tick, fraction_plan, go_on, grid_plan, is_at,
};
use Form::{Every, Risings};
use flat_model::Moment;
use std::alloc::Global;
use std::process::Abort;
use tick_plan::{FractionPlan, GridPlan, Ticking};

/// A run of both plans side by side, and how many moments it has.
#[derive(Clone, Copy)]
struct Case {
    name: &'static str,
    table: &'static [u8],
    clocks: &'static [Form],
    grid: u64,
    stop: Parts,
    moments: u64,
}

const CONTROLLER: [Form; 2] = [Every((1, 1000), (0, 1)), Every((1, 100), (0, 1))];

static CASES: [Case; 4] = [
    // Initial, and each half second up to 50.
    Case {
        name: "a clock half a second after another",
        table: b"",
        clocks: &[Every((1, 1), (0, 1)), Every((1, 1), (1, 2))],
        grid: 2,
        stop: (50, 1),
        moments: 102,
    },
    // Initial, four instants a second, and 50.
    Case {
        name: "thirds and halves",
        table: b"",
        clocks: &[Every((1, 3), (0, 1)), Every((1, 2), (0, 1))],
        grid: 6,
        stop: (50, 1),
        moments: 202,
    },
    // Initial and five rows.
    Case {
        name: "each rising and each second one",
        table: b"time,u\n0,1\n1,5\n2,6\n3,0\n4,9\n",
        clocks: &[Risings(0, 1, 0), Risings(0, 2, 0)],
        grid: 1,
        stop: (4, 1),
        moments: 6,
    },
    // Initial, 1,001 ticks and the row at 21/2000.
    Case {
        name: "a controller",
        table: b"time,u\n0,60\n0.005,70\n0.0105,90\n",
        clocks: &CONTROLLER,
        grid: 1000,
        stop: (1, 1),
        moments: 1003,
    },
];

fn are_same(a: Option<Moment>, b: Option<Moment>) -> bool {
    match (a, b) {
        (None, None) => true,
        (Some(Moment::Initial), Some(Moment::Initial)) => true,
        (Some(Moment::At(at)), b) => is_at(b, (at.num(), at.den())),
        _ => false,
    }
}

/// Asserts that the same of three classes tick.
fn assert_same_ticks(rt: &impl Abort, grid: &GridPlan, fractions: &FractionPlan, case: &Case) {
    for class in 0..3u32 {
        assert_tick(
            rt,
            grid.ticking(class),
            fractions.ticking(class),
            case.name,
            class,
        );
    }
}

/// Asserts that two plans give the same moments and ticks while a site rises at each second moment and the other at each
/// third, and tells how many moments there are.
fn moments_of_both(
    rt: &impl Abort,
    grid: &mut GridPlan,
    fractions: &mut FractionPlan,
    case: &Case,
) -> u64
    requires grid { length (grid_seen grid.old).noted ≡ 2 }
    requires fractions { length (fraction_seen fractions.old).noted ≡ 2 }
{
    for number in 0..2000u64 {
        let rises = [number % 2 == 0, number % 3 == 0];
        let moment = go_on(grid, rises);
        let same = are_same(moment, go_on(fractions, rises));
        assert_for(rt, same, case.name);
        assert_same_ticks(rt, grid, fractions, case);
        if moment.is_none() {
            return number;
        }
    }
    2000
}

/// Asserts what both plans of a case give.
fn assert_both(rt: &impl Abort, alloc: Global, case: &Case) {
    let mut grid = grid_plan(rt, alloc, case.table, case.clocks, case.grid, case.stop);
    let mut fractions = fraction_plan(rt, alloc, case.table, case.clocks, case.grid, case.stop);
    assert_number(rt, grid.denominator(), case.grid, case.name);
    let found = moments_of_both(rt, &mut grid, &mut fractions, case);
    assert_number(rt, found, case.moments, case.name);
}

#[test]
fn both_plans_side_by_side(rt: HostRuntime) {
    let alloc = rt.alloc();
    for case in &CASES {
        assert_both(&rt, alloc, case);
    }
}

/// Goes on by so many moments.
fn go_on_by(rt: &impl Abort, plan: &mut GridPlan, moments: u64)
    requires { length (grid_seen plan.old).noted ≡ 2 }
{
    for _ in 0..moments {
        assert!(rt; go_on(plan, [false, false]).is_some());
    }
}

/// A number of moments, and after them the next ticks of four classes.
type Next = (u64, [Option<u64>; 4]);

/// The next ticks of two clocks in seconds, a class of events, and no class.
const NEXT: [Next; 7] = [
    (0, [Some(0), Some(0), None, None]),
    // Initial.
    (1, [Some(0), Some(0), None, None]),
    // 0.
    (2, [Some(1), Some(10), None, None]),
    // 9/1000 and 1/100.
    (11, [Some(10), Some(10), None, None]),
    (12, [Some(11), Some(20), None, None]),
    // The row at 21/2000.
    (13, [Some(11), Some(20), None, None]),
    // 1/50, the stop.
    (23, [None, None, None, None]),
];

/// The table of the controller.
const ROWS: &[u8] = b"time,u\n0,60\n0.005,70\n0.0105,90\n";

/// The clocks of the controller, and a class of events.
static FORMS: [Form; 3] = [
    Every((1, 1000), (0, 1)),
    Every((1, 100), (0, 1)),
    Risings(0, 1, 0),
];

/// Asserts the next ticks of the controller after so many moments.
fn assert_next_ticks(rt: &impl Abort, alloc: Global, next: &Next) {
    let mut plan = grid_plan(rt, alloc, ROWS, &FORMS, 1000, (1, 50));
    go_on_by(rt, &mut plan, next.0);
    for (class, units) in next.1.iter().enumerate() {
        let found = plan.next_tick(class as u32);
        assert!(rt; found == *units, "{}: {class}", next.0);
    }
}

#[test]
fn next_ticks_in_units(rt: HostRuntime) {
    for next in &NEXT {
        assert_next_ticks(&rt, rt.alloc(), next);
    }
}
