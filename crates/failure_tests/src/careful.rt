ghost use Rattle.std.specs.Prelude.{◌≡◌, true, All};
ghost use Rattle.first_failure.specs.Careful.{IsLoneWithin};

use Fail::{Divide, TooLarge};
use first_failure::{EquationFailing, LoneLine, first_failure};
use flat_model::{Conversion, Expr, Fun};
use std::alloc::Global;
use std::process::Abort;
use step_code::{Constant, Places, Table, fits};
use step_lines::{Line, prepare_lines};
use sync_values::{ChainOp, Fail, List, Value};

/// The cells: the values of x0 to x4, those at the tick before, the constants 1, 2 and 6, and free ones. The last value of
/// x0 stays in its own cell.
const NOW: [u32; 5] = [0, 1, 2, 3, 4];

const PREVIOUS: [u32; 5] = [5, 6, 7, 8, 9];

const LAST: [u32; 1] = [0];

const CONSTANTS: [Constant; 3] = [
    Constant { word: 1, cell: 10 },
    Constant { word: 2, cell: 11 },
    Constant { word: 6, cell: 12 },
];

const FREE: u32 = 13;

const CELLS: [i64; 16] = [7, 7, 7, 7, 7, 0, 0, 0, 0, 0, 1, 2, 6, 0, 0, 0];

/// x0 is of the first class, and all others are of the second.
const CLASSES: [u32; 5] = [0, 1, 1, 1, 1];

/// Which classes tick, the values at the tick before, the failure that is told, and the values that can be read then.
type Case = (
    [bool; 2],
    [i64; 5],
    Option<EquationFailing>,
    [Option<i64>; 5],
);

/// Twice this is too large.
const HALF: i64 = 4_611_686_018_427_387_904;

/// Equations by number, in the order of uses: 4: x0 = div(6, previous(x0)); 2: x1 = noClock(x0) + 1;
/// 3: x2 = previous(x2) * 2; 1: x3 = x2 + x1; 0: x4 = mod(previous(x4), previous(x1)).
const CASES: [Case; 9] = [
    (
        [true, true],
        [2, 4, 5, 0, 7],
        None,
        [Some(3), Some(4), Some(10), Some(14), Some(3)],
    ),
    // 4 and 0 fail, and what needs x0 is left out
    (
        [true, true],
        [0, 0, 5, 0, 7],
        Some(EquationFailing {
            equation: 0,
            kind: Divide,
        }),
        [None, None, Some(10), None, None],
    ),
    (
        [true, true],
        [0, 4, 5, 0, 7],
        Some(EquationFailing {
            equation: 4,
            kind: Divide,
        }),
        [None, None, Some(10), None, Some(3)],
    ),
    // 4 fails first, and then 3
    (
        [true, true],
        [0, 4, HALF, 0, 7],
        Some(EquationFailing {
            equation: 3,
            kind: TooLarge,
        }),
        [None, None, None, None, Some(3)],
    ),
    (
        [true, true],
        [2, 4, HALF, 0, 7],
        Some(EquationFailing {
            equation: 3,
            kind: TooLarge,
        }),
        [Some(3), Some(4), None, None, Some(3)],
    ),
    // the sum is 2 ^ 63 - 2 + 7
    (
        [true, true],
        [1, 4, HALF - 1, 0, 7],
        Some(EquationFailing {
            equation: 1,
            kind: TooLarge,
        }),
        [Some(6), Some(7), Some(i64::MAX - 1), None, Some(3)],
    ),
    // x0 rests, and keeps its value
    (
        [false, true],
        [0, 4, 5, 0, 7],
        None,
        [Some(7), Some(8), Some(10), Some(18), Some(3)],
    ),
    (
        [true, false],
        [0, 0, HALF, 0, 7],
        Some(EquationFailing {
            equation: 4,
            kind: Divide,
        }),
        [None, Some(7), Some(7), Some(7), Some(7)],
    ),
    (
        [false, false],
        [0, 0, HALF, 0, 7],
        None,
        [Some(7), Some(7), Some(7), Some(7), Some(7)],
    ),
];

fn places() -> Places<'static> {
    Places {
        here: Table {
            at_now: &NOW,
            at_previous: &PREVIOUS,
            at_last: &LAST,
            first: None,
            measures: &[],
        },
        left: Table {
            at_now: &[],
            at_previous: &[],
            at_last: &[],
            first: None,
            measures: &[],
        },
        constants: &CONSTANTS,
        truths: &[],
    }
}

fn number(number: i64) -> Expr {
    Expr::Const(Value::Int(number))
}

fn both(rt: &impl Abort, alloc: Global, left: Expr, right: Expr) -> List<Expr> {
    let mut parts = List::new(alloc);
    parts.push(left).expect(rt, "memory");
    parts.push(right).expect(rt, "memory");
    parts
}

fn chain(rt: &impl Abort, alloc: Global, op: ChainOp, left: Expr, right: Expr) -> Expr {
    let mut ops = List::new(alloc);
    ops.push(op).expect(rt, "memory");
    Expr::Chain(both(rt, alloc, left, right), ops)
}

fn call(rt: &impl Abort, alloc: Global, function: Fun, left: Expr, right: Expr) -> Expr {
    Expr::Apply(function, both(rt, alloc, left, right))
}

/// The equation of a name by itself.
fn lone(
    rt: &impl Abort,
    alloc: Global,
    equation: u32,
    name: u32,
    side: &Expr,
    read: &[u32],
) -> LoneLine {
    let line = Line {
        name,
        cell: name,
        side,
    };
    let stretch = prepare_lines(alloc, &places(), &[line], FREE).expect(rt, "code");
    let mut reads = Vec::new(alloc);
    for cell in read {
        reads.push(*cell).expect(rt, "memory");
    }
    LoneLine {
        equation,
        class: CLASSES[name as usize % 5],
        cell: name,
        reads,
        stretch,
    }
}

fn lines(rt: &impl Abort, alloc: Global) -> [LoneLine; 5] {
    let x0 = call(rt, alloc, Fun::Div, number(6), Expr::Previous(0));
    let here = Expr::Convert(Conversion::NoClock, 0);
    let x1 = chain(rt, alloc, ChainOp::Plus, here, number(1));
    let x2 = chain(rt, alloc, ChainOp::Times, Expr::Previous(2), number(2));
    let x3 = chain(rt, alloc, ChainOp::Plus, Expr::Read(2), Expr::Read(1));
    let x4 = call(rt, alloc, Fun::Mod, Expr::Previous(4), Expr::Previous(1));
    [
        lone(rt, alloc, 4, 0, &x0, &[]),
        lone(rt, alloc, 2, 1, &x1, &[0]),
        lone(rt, alloc, 3, 2, &x2, &[]),
        lone(rt, alloc, 1, 3, &x3, &[2, 1]),
        lone(rt, alloc, 0, 4, &x4, &[]),
    ]
}

fn is_within(one: &LoneLine, count: usize) -> bool
    ensures { result ≡ true → IsLoneWithin count one.now }
{
    fits(&one.stretch.code, count)
}

/// Whether the code of all lines names cells that are there.
fn are_within(lines: &[LoneLine], count: usize) -> bool
    ensures { result ≡ true → All (IsLoneWithin count) lines.now }
{
    for one in lines {
        if !is_within(one, count) {
            return false;
        }
    }
    true
}

#[test]
fn the_least_equation_that_fails_is_told(rt: HostRuntime) {
    let lines = lines(&rt, rt.alloc());
    for (ticking, before, wanted, values) in &CASES {
        let mut cells = CELLS;
        let mut marks = [false; 5];
        for i in 0..5 {
            cells[i + 5] = before[i];
            marks[i] = !ticking[CLASSES[i] as usize % 2];
        }
        assert!(rt; are_within(&lines, 16), "the cells are there");
        assert!(rt; first_failure(&lines, ticking, &mut marks, &mut cells) == *wanted);
        for i in 0..5 {
            let value = if marks[i] { Some(cells[i]) } else { None };
            assert!(rt; value == values[i]);
        }
    }
}
