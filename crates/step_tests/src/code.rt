use flat_model::{Conversion, Expr, Fun};
use part_stretches::{ClassStretch, PartFailing, run_stretches};
use sqlite_items::Boxed;
use std::alloc::Global;
use std::process::Abort;
use step_code::{Backward, Constant, Instr, Measure, NoCode, Places, Table, emit, fits, run};
use step_lines::{Failing, Line, cells_of, prepare_lines, run_lines};
use sync_values::{ChainOp, Fail, List, Rel, Value};

/// Parts of an expression, each behind its operands.
#[derive(Clone, Copy)]
enum Part {
    Number(i64),
    Now(u32),
    Previous(u32),
    Hold(u32),
    Convert(u32),
    First,
    Interval(u32),
    Sample,
    Neg,
    Not,
    /// A chain of so many parts.
    Join(ChainOp, usize),
    /// a - b + c
    MinusPlus,
    Relation(Rel),
    /// So many conditions, each before its branch, and the last branch.
    Choice(usize),
    Call(Fun, usize),
}

use ChainOp::{And, Minus, Or, Plus, Times};
use Fail::{Divide, TooLarge};
use Part::{
    Call, Choice, Convert, First, Hold, Interval, Join, MinusPlus, Neg, Not, Now, Number, Previous,
    Relation, Sample,
};

/// The largest and the least Integer.
const MAX: i64 = i64::MAX;

const MIN: i64 = i64::MIN;

/// The cells. Names: x0 is 7, x1 is 0, x2 is true, x3 is false; at the tick before they were 5, 11 and false; their last
/// values on another clock are 40 and true. Left of the moment x0 is 30 and its last value 31. It is the first tick; the
/// interval is 250 thousandths, and a number that does not fit so many times as 9. Then come constants, from cell 14 on.
const CELLS: [i64; 40] = [
    7, 0, 1, 0, 5, 11, 0, 40, 1, 30, 31, 1, 250, 0, 0, 1, 2, 3, -1, -2, -7, MAX, MIN, 1, 0, 0, 0,
    0, 0, 0, 0, 0, 0, 0, 0, 0, 0, 0, 0, 0,
];

/// The cell of a result, and the first free one.
const TO: u32 = 24;

const FREE: u32 = 25;

const NOW: [u32; 4] = [0, 1, 2, 3];

const PREVIOUS: [u32; 3] = [4, 5, 6];

const LAST: [u32; 2] = [7, 8];

const LEFT: [u32; 1] = [9];

const LEFT_LAST: [u32; 1] = [10];

const MEASURES: [Measure; 2] = [
    Measure {
        times: 1000,
        cell: 12,
        unfit: 13,
    },
    Measure {
        times: 9,
        cell: 14,
        unfit: 23,
    },
];

const CONSTANTS: [Constant; 9] = [
    Constant { word: 0, cell: 14 },
    Constant { word: 1, cell: 15 },
    Constant { word: 2, cell: 16 },
    Constant { word: 3, cell: 17 },
    Constant { word: -1, cell: 18 },
    Constant { word: -2, cell: 19 },
    Constant { word: -7, cell: 20 },
    Constant {
        word: MAX,
        cell: 21,
    },
    Constant {
        word: MIN,
        cell: 22,
    },
];

const TRUTHS: [bool; 4] = [false, false, true, true];

/// An expression, and its word or its first failure.
const CASES: [(&[Part], Result<i64, Fail>); 71] = [
    (&[Number(3)], Ok(3)),
    (&[Now(0)], Ok(7)),
    (&[Previous(0)], Ok(5)),
    (&[Previous(2)], Ok(0)),
    (&[Hold(0)], Ok(40)),
    (&[Convert(1)], Ok(1)),
    (&[First], Ok(1)),
    (&[Interval(1000)], Ok(250)),
    (&[Interval(9)], Err(TooLarge)),
    (&[Now(0), Sample], Ok(30)),
    (&[Hold(0), Sample], Ok(31)),
    (&[Number(2), Sample], Ok(2)),
    // sample(x0 + 1) - x0 = 31 - 7
    (
        &[
            Now(0),
            Number(1),
            Join(Plus, 2),
            Sample,
            Now(0),
            Join(Minus, 2),
        ],
        Ok(24),
    ),
    // x0 - 2 + 3, from the left
    (&[Now(0), Number(2), Number(3), MinusPlus], Ok(8)),
    (&[Now(0), Number(2), Number(3), Join(Times, 3)], Ok(42)),
    (&[Now(0), Number(2), Number(3), Join(Minus, 3)], Ok(2)),
    // previous(x0) + previous(x1) + hold(x0) = 5 + 11 + 40
    (&[Previous(0), Previous(1), Hold(0), Join(Plus, 3)], Ok(56)),
    // (x0 + 1) * (x0 + 2) - (x0 + 3) * (x0 - 2) = 72 - 50
    (
        &[
            Now(0),
            Number(1),
            Join(Plus, 2),
            Now(0),
            Number(2),
            Join(Plus, 2),
            Join(Times, 2),
            Now(0),
            Number(3),
            Join(Plus, 2),
            Now(0),
            Number(2),
            Join(Minus, 2),
            Join(Times, 2),
            Join(Minus, 2),
        ],
        Ok(22),
    ),
    (&[Now(0), Neg], Ok(-7)),
    (&[Number(MIN), Neg], Err(TooLarge)),
    (&[Now(2), Not], Ok(0)),
    (&[Now(3), Not], Ok(1)),
    (&[Now(0), Number(3), Relation(Rel::Less)], Ok(0)),
    (&[Number(3), Number(3), Relation(Rel::LessEq)], Ok(1)),
    (&[Now(0), Number(3), Relation(Rel::Greater)], Ok(1)),
    (&[Number(2), Number(3), Relation(Rel::GreaterEq)], Ok(0)),
    (&[Now(0), Number(3), Relation(Rel::Equal)], Ok(0)),
    (&[Now(0), Number(3), Relation(Rel::Unequal)], Ok(1)),
    // false is less than true
    (&[Now(3), Now(2), Relation(Rel::Less)], Ok(1)),
    (&[Number(MIN), Number(MAX), Relation(Rel::Less)], Ok(1)),
    (&[Number(-7), Number(2), Call(Fun::Div, 2)], Ok(-3)),
    (&[Number(-7), Number(2), Call(Fun::Mod, 2)], Ok(1)),
    (&[Now(0), Number(-2), Call(Fun::Mod, 2)], Ok(-1)),
    (&[Number(-7), Number(2), Call(Fun::Rem, 2)], Ok(-1)),
    (&[Number(-7), Call(Fun::Abs, 1)], Ok(7)),
    (&[Number(-7), Number(2), Call(Fun::Min, 2)], Ok(-7)),
    (&[Number(-7), Number(2), Call(Fun::Max, 2)], Ok(2)),
    (&[Number(MIN), Call(Fun::Abs, 1)], Err(TooLarge)),
    (&[Number(MIN), Number(-1), Call(Fun::Div, 2)], Err(TooLarge)),
    (&[Now(0), Now(1), Call(Fun::Div, 2)], Err(Divide)),
    (&[Now(0), Now(1), Call(Fun::Mod, 2)], Err(Divide)),
    (&[Now(0), Now(1), Call(Fun::Rem, 2)], Err(Divide)),
    (&[Number(MAX), Number(1), Join(Plus, 2)], Err(TooLarge)),
    (&[Number(MIN), Number(1), Join(Minus, 2)], Err(TooLarge)),
    (&[Number(MAX), Number(2), Join(Times, 2)], Err(TooLarge)),
    // the sum would fit again
    (
        &[Number(MIN), Number(1), Number(2), MinusPlus],
        Err(TooLarge),
    ),
    (
        &[Number(MAX), Number(MAX), Now(1), Join(Times, 3)],
        Err(TooLarge),
    ),
    // the first failure in the order of the text
    (
        &[
            Number(MAX),
            Number(1),
            Join(Plus, 2),
            Number(1),
            Now(1),
            Call(Fun::Div, 2),
            Join(Plus, 2),
        ],
        Err(TooLarge),
    ),
    (
        &[
            Number(1),
            Now(1),
            Call(Fun::Div, 2),
            Number(MAX),
            Number(1),
            Join(Plus, 2),
            Join(Plus, 2),
        ],
        Err(Divide),
    ),
    (
        &[
            Number(1),
            Now(1),
            Call(Fun::Div, 2),
            Number(MIN),
            Neg,
            Relation(Rel::Less),
        ],
        Err(Divide),
    ),
    (
        &[
            Number(MIN),
            Neg,
            Number(1),
            Now(1),
            Call(Fun::Div, 2),
            Call(Fun::Max, 2),
        ],
        Err(TooLarge),
    ),
    (
        &[
            Interval(9),
            Number(1),
            Now(1),
            Call(Fun::Div, 2),
            Join(Plus, 2),
        ],
        Err(TooLarge),
    ),
    // only the branch that is taken
    (
        &[
            Now(2),
            Number(1),
            Number(1),
            Now(1),
            Call(Fun::Div, 2),
            Choice(1),
        ],
        Ok(1),
    ),
    (
        &[
            Now(3),
            Number(1),
            Now(1),
            Call(Fun::Div, 2),
            Number(2),
            Choice(1),
        ],
        Ok(2),
    ),
    (
        &[Now(3), Number(1), Now(2), Number(2), Number(3), Choice(2)],
        Ok(2),
    ),
    (
        &[Now(3), Number(1), Now(3), Number(2), Number(3), Choice(2)],
        Ok(3),
    ),
    (
        &[Now(2), Number(1), Now(2), Number(2), Number(3), Choice(2)],
        Ok(1),
    ),
    (
        &[
            Now(2),
            Number(1),
            Now(1),
            Call(Fun::Div, 2),
            Number(3),
            Choice(1),
        ],
        Err(Divide),
    ),
    (
        &[
            Number(1),
            Now(1),
            Call(Fun::Div, 2),
            Number(1),
            Relation(Rel::Less),
            Number(1),
            Number(2),
            Choice(1),
        ],
        Err(Divide),
    ),
    // `and` and `or` stop where the word so far decides
    (
        &[
            Now(3),
            Number(1),
            Now(1),
            Call(Fun::Div, 2),
            Now(0),
            Relation(Rel::Less),
            Join(And, 2),
        ],
        Ok(0),
    ),
    (
        &[
            Now(2),
            Number(1),
            Now(1),
            Call(Fun::Div, 2),
            Now(0),
            Relation(Rel::Less),
            Join(Or, 2),
        ],
        Ok(1),
    ),
    (
        &[
            Now(2),
            Number(1),
            Now(1),
            Call(Fun::Div, 2),
            Now(0),
            Relation(Rel::Less),
            Join(And, 2),
        ],
        Err(Divide),
    ),
    (
        &[
            Now(3),
            Number(1),
            Now(1),
            Call(Fun::Div, 2),
            Now(0),
            Relation(Rel::Less),
            Join(Or, 2),
        ],
        Err(Divide),
    ),
    (
        &[
            Now(3),
            Now(2),
            Number(1),
            Now(1),
            Call(Fun::Div, 2),
            Now(0),
            Relation(Rel::Less),
            Join(Or, 3),
        ],
        Ok(1),
    ),
    (
        &[
            Now(2),
            Now(3),
            Number(1),
            Now(1),
            Call(Fun::Div, 2),
            Now(0),
            Relation(Rel::Less),
            Join(And, 3),
        ],
        Ok(0),
    ),
    (&[Now(2), Now(2), Now(3), Join(And, 3)], Ok(0)),
    (&[Now(2), Now(2), Now(2), Join(And, 3)], Ok(1)),
    (&[Now(3), Now(3), Now(2), Join(Or, 3)], Ok(1)),
    (&[Now(3), Now(3), Now(3), Join(Or, 3)], Ok(0)),
    // 3 + (if x2 then x0 else 1) * 2
    (
        &[
            Number(3),
            Now(2),
            Now(0),
            Number(1),
            Choice(1),
            Number(2),
            Join(Times, 2),
            Join(Plus, 2),
        ],
        Ok(17),
    ),
    // not (x0 > 3 and firstTick)
    (
        &[
            Now(0),
            Number(3),
            Relation(Rel::Greater),
            First,
            Join(And, 2),
            Not,
        ],
        Ok(0),
    ),
];

/// Expressions that have no code: names and constants without a cell, and what no typed expression is.
const REFUSED: [&[Part]; 9] = [
    &[Now(4)],
    &[Previous(3)],
    &[Hold(2)],
    &[Convert(9)],
    &[Number(4)],
    &[Interval(10)],
    &[Previous(0), Sample],
    &[Now(0), Join(Plus, 1)],
    &[Now(0), Now(0), Now(0), Call(Fun::Max, 3)],
];

/// Takes the last expressions off a stack, in their order.
fn taken(rt: &impl Abort, alloc: Global, stack: &mut Vec<Expr>, count: usize) -> List<Expr> {
    let mut backward = Vec::new(alloc);
    for _ in 0..count {
        let part = stack.pop().expect(rt, "an operand");
        backward.push(part).expect(rt, "memory");
    }
    let mut parts = List::new(alloc);
    for _ in 0..count {
        let part = backward.pop().expect(rt, "an operand");
        parts.push(part).expect(rt, "memory");
    }
    parts
}

fn boxed(rt: &impl Abort, alloc: Global, stack: &mut Vec<Expr>) -> Boxed<Expr> {
    let part = stack.pop().expect(rt, "an operand");
    Boxed::new(alloc, part).expect(rt, "memory")
}

fn chain(rt: &impl Abort, alloc: Global, stack: &mut Vec<Expr>, op: ChainOp, count: usize) -> Expr {
    let mut ops = List::new(alloc);
    for _ in 1..count {
        ops.push(op).expect(rt, "memory");
    }
    Expr::Chain(taken(rt, alloc, stack, count), ops)
}

fn choice(rt: &impl Abort, alloc: Global, stack: &mut Vec<Expr>, count: usize) -> Expr {
    let other = boxed(rt, alloc, stack);
    let mut backward = Vec::new(alloc);
    for _ in 0..count {
        let branch = stack.pop().expect(rt, "a branch");
        backward.push(branch).expect(rt, "memory");
        let condition = stack.pop().expect(rt, "a condition");
        backward.push(condition).expect(rt, "memory");
    }
    let mut conditions = List::new(alloc);
    let mut branches = List::new(alloc);
    for _ in 0..count {
        let condition = backward.pop().expect(rt, "a condition");
        conditions.push(condition).expect(rt, "memory");
        let branch = backward.pop().expect(rt, "a branch");
        branches.push(branch).expect(rt, "memory");
    }
    Expr::If(conditions, branches, other)
}

/// One more part of an expression.
fn made(rt: &impl Abort, alloc: Global, stack: &mut Vec<Expr>, part: Part) -> Expr {
    match part {
        Number(number) => Expr::Const(Value::Int(number)),
        Now(name) => Expr::Read(name),
        Previous(name) => Expr::Previous(name),
        Hold(name) => Expr::Hold(name),
        Convert(name) => Expr::Convert(Conversion::NoClock, name),
        First => Expr::FirstTick(None),
        Interval(times) => Expr::IntervalTimes(None, times),
        Sample => Expr::Sample(boxed(rt, alloc, stack), None),
        Neg => Expr::Neg(boxed(rt, alloc, stack)),
        Not => Expr::Not(boxed(rt, alloc, stack)),
        Join(op, count) => chain(rt, alloc, stack, op, count),
        MinusPlus => {
            let mut ops = List::new(alloc);
            ops.push(Minus).expect(rt, "memory");
            ops.push(Plus).expect(rt, "memory");
            Expr::Chain(taken(rt, alloc, stack, 3), ops)
        }
        Relation(rel) => {
            let right = boxed(rt, alloc, stack);
            Expr::Relation(rel, boxed(rt, alloc, stack), right)
        }
        Choice(count) => choice(rt, alloc, stack, count),
        Call(function, count) => Expr::Apply(function, taken(rt, alloc, stack, count)),
    }
}

fn built(rt: &impl Abort, alloc: Global, parts: &[Part]) -> Expr {
    let mut stack = Vec::new(alloc);
    for part in parts {
        let expr = made(rt, alloc, &mut stack, *part);
        stack.push(expr).expect(rt, "memory");
    }
    stack.pop().expect(rt, "an expression")
}

/// The cells of all names.
fn places() -> Places<'static> {
    Places {
        here: Table {
            at_now: &NOW,
            at_previous: &PREVIOUS,
            at_last: &LAST,
            first: Some(11),
            measures: &MEASURES,
        },
        left: Table {
            at_now: &LEFT,
            at_previous: &[],
            at_last: &LEFT_LAST,
            first: None,
            measures: &[],
        },
        constants: &CONSTANTS,
        truths: &TRUTHS,
    }
}

/// The code of an expression for the cell of a result.
fn code_of(rt: &impl Abort, alloc: Global, expr: &Expr, free: u32) -> Result<Vec<Instr>, NoCode> {
    let mut out = Backward::new(alloc);
    match emit(&mut out, &places(), expr, TO, free) {
        Ok(()) => Ok(out.finish()),
        Err(kind) => Err(kind),
    }
}

#[test]
fn code_gives_the_value_or_the_first_failure(rt: HostRuntime) {
    for (parts, wanted) in &CASES {
        let expr = built(&rt, rt.alloc(), *parts);
        let code = code_of(&rt, rt.alloc(), &expr, FREE).expect(&rt, "code");
        let mut cells = CELLS;
        assert!(rt; fits(&code, 40), "the cells are there");
        let found = match run(&code, &mut cells) {
            None => Ok(cells[TO as usize]),
            Some(stop) => Err(stop.kind),
        };
        assert!(rt; found == *wanted);
        for i in 0..24 {
            assert!(rt; cells[i] == CELLS[i], "no cell of a name is written");
        }
    }
}

#[test]
fn no_code_without_cells(rt: HostRuntime) {
    for parts in &REFUSED {
        let expr = built(&rt, rt.alloc(), *parts);
        assert!(rt; code_of(&rt, rt.alloc(), &expr, FREE).err() == Some(NoCode::Unknown));
    }
    let sum = built(&rt, rt.alloc(), &[Now(0), Now(1), Join(Plus, 2)]);
    assert!(rt; code_of(&rt, rt.alloc(), &sum, u32::MAX).err() == Some(NoCode::Large));
}

#[test]
fn code_fits_where_all_its_cells_are(rt: HostRuntime) {
    // x0 - (x0 - 1) has one cell for the right side
    let expr = built(
        &rt,
        rt.alloc(),
        &[Now(0), Now(0), Number(1), Join(Minus, 2), Join(Minus, 2)],
    );
    let code = code_of(&rt, rt.alloc(), &expr, FREE).expect(&rt, "code");
    assert!(rt; fits(&code, 26));
    assert!(rt; !fits(&code, 25));
    assert!(rt; fits(&[], 0));
}

/// The value of x0 at the tick before, the failure with its place, and the cells of the names after the run.
const RUNS: [(i64, Option<Failing>, [i64; 3]); 3] = [
    (5, None, [6, 3, 1]),
    (4, None, [6, 1, 1]),
    (
        6,
        Some(Failing {
            place: 1,
            kind: Divide,
        }),
        [6, 0, 1],
    ),
];

/// An equation whose name has the cell of its number.
fn line(name: u32, side: &Expr) -> Line<'_> {
    Line {
        name,
        cell: name,
        side,
    }
}

#[test]
fn equations_run_up_to_the_first_that_fails(rt: HostRuntime) {
    // x0 = 3 * 2; x1 = div(3, x0 - previous(x0)); x2 = not previous(x2)
    let first = built(&rt, rt.alloc(), &[Number(3), Number(2), Join(Times, 2)]);
    let difference = [
        Number(3),
        Now(0),
        Previous(0),
        Join(Minus, 2),
        Call(Fun::Div, 2),
    ];
    let second = built(&rt, rt.alloc(), &difference);
    let third = built(&rt, rt.alloc(), &[Previous(2), Not]);
    let lines = [line(0, &first), line(1, &second), line(2, &third)];
    let stretch = prepare_lines(rt.alloc(), &places(), &lines, FREE).expect(&rt, "code");
    // 3 * 2; x0 - previous(x0) and the quotient; not
    assert!(rt; stretch.code.len() == 4);
    // the difference has the first free cell
    assert!(rt; cells_of(&stretch.code) == 26);
    for (before, wanted, names) in &RUNS {
        let mut cells = CELLS;
        cells[4] = *before;
        assert!(rt; fits(&stretch.code, cells.len()));
        assert!(rt; run_lines(&stretch, &mut cells) == *wanted);
        for i in 0..3 {
            assert!(rt; cells[i] == names[i]);
        }
    }
}

/// Which classes tick, the value of x0 at the tick before, the failure, and the cells of x0, x1 and x2 after the run.
const MOMENTS: [([bool; 2], i64, Option<PartFailing>, [i64; 3]); 5] = [
    ([true, true], 5, None, [6, 3, 1]),
    ([true, false], 5, None, [6, 0, 1]),
    // x0 keeps 7
    ([false, true], 6, None, [7, 3, 1]),
    ([false, false], 7, None, [7, 0, 1]),
    (
        [false, true],
        7,
        Some(PartFailing {
            stretch: 1,
            place: 0,
            kind: Divide,
        }),
        [7, 0, 1],
    ),
];

#[test]
fn stretches_run_where_their_classes_tick(rt: HostRuntime) {
    // x0 = 3 * 2 of class 0; x1 = div(3, x0 - previous(x0)) and x2 = not previous(x2) of class 1
    let first = built(&rt, rt.alloc(), &[Number(3), Number(2), Join(Times, 2)]);
    let difference = [
        Number(3),
        Now(0),
        Previous(0),
        Join(Minus, 2),
        Call(Fun::Div, 2),
    ];
    let second = built(&rt, rt.alloc(), &difference);
    let third = built(&rt, rt.alloc(), &[Previous(2), Not]);
    let one = prepare_lines(rt.alloc(), &places(), &[line(0, &first)], FREE).expect(&rt, "code");
    let others = [line(1, &second), line(2, &third)];
    let two = prepare_lines(rt.alloc(), &places(), &others, FREE).expect(&rt, "code");
    let stretches = [
        ClassStretch {
            class: 0,
            stretch: one,
        },
        ClassStretch {
            class: 1,
            stretch: two,
        },
    ];
    for (ticking, before, wanted, names) in &MOMENTS {
        let mut cells = CELLS;
        cells[4] = *before;
        assert!(rt; fits(&stretches[0].stretch.code, cells.len()));
        assert!(rt; fits(&stretches[1].stretch.code, cells.len()));
        assert!(rt; run_stretches(&stretches, ticking, &mut cells) == *wanted);
        for i in 0..3 {
            assert!(rt; cells[i] == names[i]);
        }
    }
}
