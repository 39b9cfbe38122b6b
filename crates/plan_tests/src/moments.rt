ghost use Rattle.std.specs.Prelude.{◌≡◌, length};
ghost use Rattle.tick_plan.specs.Seen.{grid_seen};
ghost use Rattle.tick_plan.specs.SeenFractions.{fraction_seen};

use crate::given::{Form, Parts};
use crate::planning::{
    assert_for, assert_number, assert_tick, fraction_plan, go_on, grid_plan, is_at, is_initial,
};
use Form::{Every, Risings};
use std::alloc::Global;
use std::process::Abort;
use tick_plan::{FractionPlan, GridPlan, TickSource};

/// An instant, and the classes that tick at it.
type Instant = (u64, u64, &'static [u32]);

/// The moments of a run: of each instant after Initial the classes that tick. `rises` says of the first instants which
/// of the two sites rise.
#[derive(Clone, Copy)]
struct Case {
    name: &'static str,
    table: &'static [u8],
    clocks: &'static [Form],
    grid: u64,
    stop: Parts,
    instants: &'static [Instant],
    rises: &'static [[bool; 2]],
}

const NONE: [bool; 2] = [false, false];

const FIRST: [bool; 2] = [true, false];

const SECOND: [bool; 2] = [false, true];

const BOTH: [bool; 2] = [true, true];

/// Every second from 0 on.
const SECONDS: Form = Every((1, 1), (0, 1));

static PERIODIC: [Case; 12] = [
    Case {
        name: "a clock and a table",
        table: b"time,u\n0,5\n1,7\n",
        clocks: &[SECONDS],
        grid: 1,
        stop: (2, 1),
        instants: &[(0, 1, &[0]), (1, 1, &[0]), (2, 1, &[0])],
        rises: &[],
    },
    Case {
        name: "the same table in its second form",
        table: b"time2,u\n+0,5\n+1,7\n+1,\n",
        clocks: &[SECONDS],
        grid: 1,
        stop: (2, 1),
        instants: &[(0, 1, &[0]), (1, 1, &[0]), (2, 1, &[0])],
        rises: &[],
    },
    Case {
        name: "neither clock nor table",
        table: b"",
        clocks: &[],
        grid: 1,
        stop: (0, 1),
        instants: &[(0, 1, &[])],
        rises: &[],
    },
    Case {
        name: "rows alone",
        table: b"time,u\n0,0\n1,4\n",
        clocks: &[],
        grid: 1,
        stop: (1, 1),
        instants: &[(0, 1, &[]), (1, 1, &[])],
        rises: &[],
    },
    Case {
        name: "one row",
        table: b"time , u\r\n0, 5\r\n",
        clocks: &[],
        grid: 1,
        stop: (0, 1),
        instants: &[(0, 1, &[])],
        rises: &[],
    },
    Case {
        name: "a row after the stop",
        table: b"time,u\n0,5\n1,6\n",
        clocks: &[Every((1, 4), (0, 1))],
        grid: 4,
        stop: (1, 2),
        instants: &[(0, 1, &[0]), (1, 4, &[0]), (1, 2, &[0])],
        rises: &[],
    },
    Case {
        name: "rows between ticks, on one and behind the last",
        table: b"time,u\n0,1\n1/4,2\n1/2,3\n5/2,4\n3.25,5\n4,6\n5,7\n",
        clocks: &[Every((2, 1), (1, 2))],
        grid: 2,
        stop: (4, 1),
        instants: &[
            (0, 1, &[]),
            (1, 4, &[]),
            (1, 2, &[0]),
            (5, 2, &[0]),
            (13, 4, &[]),
            (4, 1, &[]),
        ],
        rises: &[],
    },
    Case {
        name: "a first tick after the stop",
        table: b"",
        clocks: &[Every((1, 1), (3, 2)), SECONDS],
        grid: 2,
        stop: (1, 1),
        instants: &[(0, 1, &[1]), (1, 1, &[1])],
        rises: &[],
    },
    Case {
        name: "two classes of one clock",
        table: b"",
        clocks: &[SECONDS, Every((2, 1), (1, 1)), SECONDS],
        grid: 1,
        stop: (2, 1),
        instants: &[(0, 1, &[0, 2]), (1, 1, &[0, 1, 2]), (2, 1, &[0, 2])],
        rises: &[],
    },
    Case {
        name: "a clock half a second after another",
        table: b"",
        clocks: &[SECONDS, Every((1, 1), (1, 2))],
        grid: 2,
        stop: (3, 2),
        instants: &[(0, 1, &[0]), (1, 2, &[1]), (1, 1, &[0]), (3, 2, &[1])],
        rises: &[],
    },
    Case {
        name: "thirds and halves",
        table: b"",
        clocks: &[Every((1, 3), (0, 1)), Every((1, 2), (0, 1))],
        grid: 6,
        stop: (1, 1),
        instants: &[
            (0, 1, &[0, 1]),
            (1, 3, &[0]),
            (1, 2, &[1]),
            (2, 3, &[0]),
            (1, 1, &[0, 1]),
        ],
        rises: &[],
    },
    Case {
        name: "a controller",
        table: b"time,u\n0,60\n0.005,70\n0.0105,90\n",
        clocks: &[Every((1, 1000), (0, 1)), Every((1, 100), (0, 1))],
        grid: 1000,
        stop: (1, 50),
        instants: &[
            (0, 1, &[0, 1]),
            (1, 1000, &[0]),
            (1, 500, &[0]),
            (3, 1000, &[0]),
            (1, 250, &[0]),
            (1, 200, &[0]),
            (3, 500, &[0]),
            (7, 1000, &[0]),
            (1, 125, &[0]),
            (9, 1000, &[0]),
            (1, 100, &[0, 1]),
            (21, 2000, &[]),
            (11, 1000, &[0]),
            (3, 250, &[0]),
            (13, 1000, &[0]),
            (7, 500, &[0]),
            (3, 200, &[0]),
            (2, 125, &[0]),
            (17, 1000, &[0]),
            (9, 500, &[0]),
            (19, 1000, &[0]),
            (1, 50, &[0, 1]),
        ],
        rises: &[],
    },
];

static EVENTS: [Case; 3] = [
    Case {
        name: "each rising and each second one",
        table: b"time,u\n0,1\n1,5\n2,6\n3,0\n4,9\n",
        clocks: &[Risings(0, 1, 0), Risings(0, 2, 0)],
        grid: 1,
        stop: (4, 1),
        instants: &[
            (0, 1, &[]),
            (1, 1, &[0, 1]),
            (2, 1, &[]),
            (3, 1, &[]),
            (4, 1, &[0]),
        ],
        rises: &[NONE, FIRST, NONE, NONE, FIRST],
    },
    Case {
        name: "shifts by one and by two risings",
        table: b"time,u\n0,0\n1,1\n2,2\n3,3\n4,4\n5,5\n",
        clocks: &[Risings(0, 2, 1), Risings(0, 3, 2), Risings(0, 1, 0)],
        grid: 1,
        stop: (5, 1),
        instants: &[
            (0, 1, &[2]),
            (1, 1, &[0, 2]),
            (2, 1, &[]),
            (3, 1, &[1, 2]),
            (4, 1, &[0, 2]),
            (5, 1, &[2]),
        ],
        rises: &[FIRST, FIRST, NONE, FIRST, FIRST, FIRST],
    },
    Case {
        name: "two sites beside a clock in seconds",
        table: b"time,u\n0,0\n1/2,1\n1,0\n",
        clocks: &[SECONDS, Risings(1, 1, 1), Risings(0, 1, 0)],
        grid: 1,
        stop: (3, 1),
        instants: &[
            (0, 1, &[0]),
            (1, 2, &[1, 2]),
            (1, 1, &[0, 1]),
            (2, 1, &[0]),
            (3, 1, &[0, 2]),
        ],
        rises: &[SECOND, BOTH, SECOND, NONE, FIRST],
    },
];

/// Asserts that no class but these ticks at the moment given last. No case has more than three classes.
fn assert_ticks<P: TickSource>(rt: &impl Abort, plan: &P, case: &Case, ticks: &[u32]) {
    for class in 0..4u32 {
        let mut wanted = false;
        for other in ticks {
            wanted = wanted || *other == class;
        }
        assert_tick(rt, plan.ticking(class), wanted, case.name, class);
    }
}

/// Asserts that a plan gives the moments of a case.
fn assert_moments<P: TickSource>(rt: &impl Abort, plan: &mut P, case: &Case)
    requires { length (P.planned plan.old).noted ≡ 2 }
{
    assert_ticks(rt, plan, case, &[]);
    assert_for(rt, is_initial(go_on(plan, NONE)), case.name);
    assert_ticks(rt, plan, case, &[]);
    for (i, instant) in case.instants.iter().enumerate() {
        let (num, den, ticks) = *instant;
        let rises = case.rises.get(i).copied().unwrap_or(NONE);
        assert!(rt;
            is_at(go_on(plan, rises), (num, den)),
            "{} at {num}/{den}",
            case.name
        );
        assert_ticks(rt, plan, case, ticks);
    }
    for _ in 0..3 {
        assert_for(rt, go_on(plan, NONE).is_none(), case.name);
    }
}

fn plan_in_units(rt: &impl Abort, alloc: Global, case: &Case) -> GridPlan
    ensures { length (grid_seen result).noted ≡ 2 }
{
    grid_plan(rt, alloc, case.table, case.clocks, case.grid, case.stop)
}

fn plan_on_fractions(rt: &impl Abort, alloc: Global, case: &Case) -> FractionPlan
    ensures { length (fraction_seen result).noted ≡ 2 }
{
    fraction_plan(rt, alloc, case.table, case.clocks, case.grid, case.stop)
}

/// Asserts that the plan in units gives the moments of a case.
fn assert_grid(rt: &impl Abort, alloc: Global, case: &Case) {
    let mut plan = plan_in_units(rt, alloc, case);
    assert_number(rt, plan.denominator(), case.grid, case.name);
    assert_moments(rt, &mut plan, case);
}

/// Asserts that the plan on fractions gives the moments of a case.
fn assert_fractions(rt: &impl Abort, alloc: Global, case: &Case) {
    let mut plan = plan_on_fractions(rt, alloc, case);
    assert_moments(rt, &mut plan, case);
}

/// Both plans give the moments of each case.
#[test]
fn moments_and_ticks(rt: HostRuntime) {
    let alloc = rt.alloc();
    for case in &PERIODIC {
        assert_grid(&rt, alloc, case);
        assert_fractions(&rt, alloc, case);
    }
    for case in &EVENTS {
        assert_grid(&rt, alloc, case);
        assert_fractions(&rt, alloc, case);
    }
}

/// Two clocks of 1/3 and 1/2 over ten seconds.
static LONG: Case = Case {
    name: "thirds and halves of ten seconds",
    table: b"",
    clocks: &[Every((1, 3), (0, 1)), Every((1, 2), (0, 1))],
    grid: 6,
    stop: (10, 1),
    instants: &[],
    rises: &[],
};

/// Asserts an instant of the thirds and halves, and the classes that tick at it.
fn assert_long<P: TickSource>(rt: &impl Abort, plan: &mut P, at: Parts, ticks: &[u32])
    requires { length (P.planned plan.old).noted ≡ 2 }
    ensures { length (P.planned plan.new).noted ≡ 2 }
{
    let moment = go_on(plan, NONE);
    assert!(rt; is_at(moment, at));
    assert_ticks(rt, plan, &LONG, ticks);
}

/// Asserts the 41 instants of the thirds and halves.
fn assert_thirds_and_halves<P: TickSource>(rt: &impl Abort, plan: &mut P)
    requires { length (P.planned plan.old).noted ≡ 2 }
{
    assert!(rt; is_initial(go_on(plan, NONE)));
    for second in 0..10u64 {
        assert_long(rt, plan, (second, 1), &[0, 1]);
        assert_long(rt, plan, (3 * second + 1, 3), &[0]);
        assert_long(rt, plan, (2 * second + 1, 2), &[1]);
        assert_long(rt, plan, (3 * second + 2, 3), &[0]);
    }
    assert_long(rt, plan, (10, 1), &[0, 1]);
    assert!(rt; go_on(plan, NONE).is_none());
}

#[test]
fn thirds_and_halves_in_units(rt: HostRuntime) {
    let mut plan = plan_in_units(&rt, rt.alloc(), &LONG);
    assert_thirds_and_halves(&rt, &mut plan);
}

#[test]
fn thirds_and_halves_on_fractions(rt: HostRuntime) {
    let mut plan = plan_on_fractions(&rt, rt.alloc(), &LONG);
    assert_thirds_and_halves(&rt, &mut plan);
}
