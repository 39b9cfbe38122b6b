use crate::models::Side::{Held, Name, Number, Previous, Sampled, Sum};
use crate::models::{Model, Side, flat_model};
use Stage::{Partition, Pure, Waiting};
use eq_order::Use;
use eq_orient::kinds::Spine;
use moment_order::Stage;
use part_groups::{group_law, groups, one_grouping_law, unit_law};
use std::alloc::Global;
use std::process::Abort;

/// Equations, of which equation `i` gives name `i`, each with the stage of its use; how many base partitions there are; and
/// the groups of these and of the uses that wait.
type Row = (
    &'static [(Side, Side, Option<u32>)],
    &'static [Stage],
    u32,
    &'static [u32],
);

const NONE: Option<u32> = None;

const FIRST: Option<u32> = Some(0);

const SECOND: Option<u32> = Some(1);

const COUNTED: (Side, Side, Option<u32>) = (Name(0), Previous(0), FIRST);

const OTHER: (Side, Side, Option<u32>) = (Name(1), Previous(1), SECOND);

const ROWS: [Row; 7] = [
    // Two counters.
    (&[COUNTED, OTHER], &[Partition(0), Partition(1)], 2, &[0, 1]),
    // The second samples what holds the first.
    (
        &[
            COUNTED,
            (Name(1), Sampled(2), SECOND),
            (Name(2), Held(0), NONE),
        ],
        &[Partition(0), Partition(1), Waiting],
        2,
        &[0, 0, 0],
    ),
    // Both sample a name that rests on no clock.
    (
        &[
            (Name(0), Sampled(2), FIRST),
            (Name(1), Sampled(2), SECOND),
            (Name(2), Number(5), NONE),
        ],
        &[Partition(0), Partition(1), Pure],
        2,
        &[0, 1],
    ),
    // Each has a name that holds it.
    (
        &[
            COUNTED,
            OTHER,
            (Name(2), Held(1), NONE),
            (Name(3), Held(0), NONE),
        ],
        &[Partition(0), Partition(1), Waiting, Waiting],
        2,
        &[0, 1, 1, 0],
    ),
    // And a third one reads both.
    (
        &[
            COUNTED,
            OTHER,
            (Name(2), Held(1), NONE),
            (Name(3), Held(0), NONE),
            (Name(4), Sum(2, 3), NONE),
        ],
        &[Partition(0), Partition(1), Waiting, Waiting, Waiting],
        2,
        &[0, 0, 0, 0, 0],
    ),
    // A base partition without uses.
    (
        &[COUNTED, OTHER],
        &[Partition(0), Partition(2)],
        3,
        &[0, 1, 2],
    ),
    // Two names of one base partition.
    (&[COUNTED, OTHER], &[Partition(0), Partition(0)], 1, &[0]),
];

fn assert_row(rt: &impl Abort, alloc: Global, row: &Row) {
    let (equations, stages, count, wanted) = *row;
    assert!(rt; equations.len() <= 5);
    let model = Model {
        names: &[NONE, NONE, NONE, NONE, NONE],
        equations,
        clocks: &[],
        grid: 1,
    };
    let flat = flat_model(rt, alloc, &model);
    let mut order = Vec::new(alloc);
    for (i, _) in equations.iter().enumerate() {
        let entry = Use {
            equation: i as u32,
            name: i as u32,
            spine: Spine { left: true },
        };
        order.push(entry).expect(rt, "memory");
    }
    let found = groups(alloc, &flat, &order, stages, count).expect(rt, "memory");
    assert!(rt; found.as_slice() == wanted);
}

#[test]
fn groups_units_by_needs(rt: HostRuntime) {
    group_law();
    one_grouping_law();
    unit_law();
    for row in &ROWS {
        assert_row(&rt, rt.alloc(), row);
    }
}
