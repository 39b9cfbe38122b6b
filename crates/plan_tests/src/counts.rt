use crate::given::{Form, case_given};
use crate::planning::assert_for;
use Form::{Every, Risings};
use std::alloc::Global;
use std::process::Abort;
use tick_plan::{FractionPlan, GridPlan, PlanEnd};

/// A clocking and a table up to a stop of whole seconds, and the count of rows and ticks where it is too large.
#[derive(Clone, Copy)]
struct Case {
    name: &'static str,
    table: &'static [u8],
    clocks: &'static [Form],
    grid: u64,
    stop: u64,
    too_many: Option<u128>,
}

static CASES: [Case; 8] = [
    // The row at 0, and the ticks from 0 to 67,108,862.
    Case {
        name: "the greatest count",
        table: b"",
        clocks: &[Every((1, 67_108_862), (0, 1))],
        grid: 67_108_862,
        stop: 1,
        too_many: None,
    },
    Case {
        name: "one more",
        table: b"",
        clocks: &[Every((1, 67_108_863), (0, 1))],
        grid: 67_108_863,
        stop: 1,
        too_many: Some(67_108_865),
    },
    Case {
        name: "the finest clock",
        table: b"",
        clocks: &[Every((1, 2_147_483_647), (0, 1))],
        grid: 2_147_483_647,
        stop: 1,
        too_many: Some(2_147_483_649),
    },
    Case {
        name: "a row more",
        table: b"time,u\n0,0\n1,1\n",
        clocks: &[Every((1, 67_108_862), (0, 1))],
        grid: 67_108_862,
        stop: 1,
        too_many: Some(67_108_865),
    },
    Case {
        name: "a row after the stop",
        table: b"time,u\n0,0\n2,1\n",
        clocks: &[Every((1, 67_108_862), (0, 1))],
        grid: 67_108_862,
        stop: 1,
        too_many: None,
    },
    // Each class counts, and ticks of two classes at one instant count twice.
    Case {
        name: "two classes of one clock",
        table: b"",
        clocks: &[
            Every((1, 33_554_432), (0, 1)),
            Every((1, 33_554_432), (0, 1)),
        ],
        grid: 33_554_432,
        stop: 1,
        too_many: Some(67_108_867),
    },
    // A class of events counts as many ticks as there are rows.
    Case {
        name: "events at two rows",
        table: b"time,u\n0,0\n1,1\n2,2\n",
        clocks: &[Every((1, 67_108_860), (0, 1)), Risings(0, 1, 0)],
        grid: 67_108_860,
        stop: 1,
        too_many: Some(67_108_865),
    },
    Case {
        name: "no clock up to the last stop",
        table: b"",
        clocks: &[],
        grid: 1,
        stop: 1_048_575,
        too_many: None,
    },
];

fn count_of<P: Drop>(answer: Result<P, PlanEnd>) -> Option<u128> {
    match answer {
        Ok(_) => None,
        Err(PlanEnd::TooMany { count }) => Some(count),
        Err(PlanEnd::NoMemory) => Some(0),
    }
}

fn grid_count(rt: &impl Abort, alloc: Global, case: &Case) -> Option<u128> {
    let given = case_given(
        rt,
        alloc,
        case.table,
        case.clocks,
        case.grid,
        (case.stop, 1),
    );
    count_of(GridPlan::new(
        alloc,
        &given.flat,
        &given.clocking,
        &given.table,
        given.stop,
    ))
}

fn fraction_count(rt: &impl Abort, alloc: Global, case: &Case) -> Option<u128> {
    let given = case_given(
        rt,
        alloc,
        case.table,
        case.clocks,
        case.grid,
        (case.stop, 1),
    );
    count_of(FractionPlan::new(
        alloc,
        &given.flat,
        &given.clocking,
        &given.table,
        given.stop,
    ))
}

/// Neither plan is made where there are too many rows and ticks.
#[test]
fn too_many_rows_and_ticks(rt: HostRuntime) {
    let alloc = rt.alloc();
    for case in &CASES {
        let grid = grid_count(&rt, alloc, case);
        assert_for(&rt, grid == case.too_many, case.name);
        let fractions = fraction_count(&rt, alloc, case);
        assert_for(&rt, fractions == case.too_many, case.name);
    }
}
