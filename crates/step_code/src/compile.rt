ghost use Rattle.std.specs.Prelude.{◌≡◌, ℕ, Bool, ◌+◌, ◌++◌, ◌∷◌, [], length, map, slice_get, MatchOption, OnOk, IfErr, Some, None, true, ◌&&◌};
ghost use Rattle.sync_values.specs.Relation.{rank};
ghost use Rattle.step_code.specs.declared.compile.NoCode.TheVariants.{Memory};
ghost use Rattle.step_code.specs.Emits.{Emits, IsCounted};
ghost use Rattle.step_code.specs.Code.{instr, cell_piece, is_chain, is_if, is_call, all_known, piece_of, places_of, const_in, interval_in, unfit_in, cells_before, chain_code, turn_code, if_code, call_code, joined_code, first_code, held_code, held_place, binary_code, unary_code, lazy_code, op_of_chain, op_of_rel, op_of_fun, is_lazy};

use crate::backward::Backward;
use crate::machine::{Instr, Op};
use flat_model::{Expr, Fun};
use std::alloc::{AllocError, Global};
use sync_values::{ChainOp, Rel, Value};

/// A constant and its cell.
#[derive(Clone, Copy, Debug)]
pub struct Constant {
    /// The Integer, or 0 or 1 for a Boolean.
    pub word: i64,
    pub cell: u32,
}

/// The cells of the clock's interval, so many times, as a whole number: the number, and 1 where it does not fit.
#[derive(Clone, Copy, Debug)]
pub struct Measure {
    pub times: u32,
    pub cell: u32,
    pub unfit: u32,
}

/// The cells of names, seen from one moment: at place x of each list is the cell of name x. A list may be shorter than
/// there are names.
#[derive(Clone, Copy, Drop)]
pub struct Table<'a> {
    /// The cells of the values at the moment.
    pub at_now: &'a [u32],
    /// The cells of the values at the tick before, for `previous`.
    pub at_previous: &'a [u32],
    /// The cells of the values at the last tick, for `hold` and conversions.
    pub at_last: &'a [u32],
    /// The cell that tells whether the clock ticks for the first time.
    pub first: Option<u32>,
    pub measures: &'a [Measure],
}

/// The cells of names and constants, with those of the left limits, which an argument of `sample` reads.
#[derive(Clone, Copy, Drop)]
pub struct Places<'a> {
    pub here: Table<'a>,
    pub left: Table<'a>,
    pub constants: &'a [Constant],
    /// Whether name x is a Boolean.
    pub truths: &'a [bool],
}

/// The cells, seen from the moment before.
fn from_left<'a>(places: &Places<'a>) -> Places<'a>
    ensures { places_of result ≡ cells_before (places_of places.now) }
{
    Places {
        here: places.left,
        left: Table {
            at_now: &[],
            at_previous: &[],
            at_last: &[],
            first: None,
            measures: &[],
        },
        constants: places.constants,
        truths: places.truths,
    }
}

/// Why an expression has no code.
#[derive(Clone, Copy, Debug, PartialEq, Eq)]
pub enum NoCode {
    /// Memory is refused.
    Memory,
    /// A name or a constant has no cell, or the expression has not the form of a typed one.
    Unknown,
    /// A cell or the length of a jump has no number of 32 bits.
    Large,
}

/// The word of a value: an Integer itself, a Boolean as 0 or 1.
fn word_of(value: Value) -> i64
    ensures { result ≡ rank value }
{
    match value {
        Value::Int(number) => number,
        Value::Bool(false) => 0,
        Value::Bool(true) => 1,
    }
}

/// The cell of a constant.
fn constant_cell(constants: &[Constant], word: i64) -> Option<u32>
    ensures { result ≡ const_in constants.now word }
{
    for constant in constants {
        if constant.word == word {
            return Some(constant.cell);
        }
    }
    None
}

/// The cell of a name.
fn cell_in(cells: &[u32], name: u32) -> Option<u32>
    ensures { result ≡ slice_get cells.now name }
{
    cells.get(name as usize).copied()
}

/// The cells of the interval so many times.
fn measured(measures: &[Measure], times: u32) -> Option<Measure>
    ensures { MatchOption result (interval_in measures.now times ≡ None) (λ m. (interval_in measures.now times ≡ Some m.cell) × (unfit_in measures.now times ≡ m.unfit)) }
{
    for each in measures {
        if each.times == times {
            return Some(*each);
        }
    }
    None
}

/// The cell of an expression that is a cell already.
#[tactic(auto, using(crate::proofs::Pieces::leaves))]
fn leaf(places: &Places<'_>, expr: &Expr) -> Option<u32>
    ensures { result ≡ (piece_of (places_of places.now) expr.now).leaf }
{
    match expr {
        Expr::Const(value) => constant_cell(places.constants, word_of(*value)),
        Expr::Read(name) => cell_in(places.here.at_now, *name),
        Expr::Previous(name) => cell_in(places.here.at_previous, *name),
        Expr::Hold(name) => cell_in(places.here.at_last, *name),
        Expr::Convert(_, name) => cell_in(places.here.at_last, *name),
        Expr::Chain(_, _) => None,
        Expr::Relation(_, _, _) => None,
        Expr::Neg(_) => None,
        Expr::Not(_) => None,
        Expr::If(_, _, _) => None,
        Expr::Apply(_, _) => None,
        Expr::FirstTick(_) => places.here.first,
        Expr::IntervalTimes(_, _) => None,
        Expr::Sample(part, _) => leaf(&from_left(places), part.get()),
    }
}

/// The instruction of an operator; of `and` and `or` the skip.
fn op_of(op: ChainOp) -> Op
    ensures { result ≡ op_of_chain op }
{
    match op {
        ChainOp::Plus => Op::Add,
        ChainOp::Minus => Op::Subtract,
        ChainOp::Times => Op::Multiply,
        ChainOp::Over => Op::Divide,
        ChainOp::And => Op::SkipIfFalse,
        ChainOp::Or => Op::SkipIfTrue,
    }
}

/// Whether the operator evaluates its second part only where it is needed.
fn is_short(op: ChainOp) -> bool
    ensures { result ≡ is_lazy op }
{
    matches!(op, ChainOp::And | ChainOp::Or)
}

/// The instruction of a relation.
fn op_of_relation(rel: Rel) -> Op
    ensures { result ≡ op_of_rel rel }
{
    match rel {
        Rel::Less => Op::Less,
        Rel::LessEq => Op::LessEq,
        Rel::Greater => Op::Greater,
        Rel::GreaterEq => Op::GreaterEq,
        Rel::Equal => Op::Equal,
        Rel::Unequal => Op::Unequal,
    }
}

/// The instruction of a function.
fn op_of_call(function: Fun) -> Op
    ensures { result ≡ op_of_fun function }
{
    match function {
        Fun::Div => Op::Divide,
        Fun::Mod => Op::Modulo,
        Fun::Rem => Op::Remainder,
        Fun::Abs => Op::Magnitude,
        Fun::Min => Op::Lesser,
        Fun::Max => Op::Larger,
    }
}

/// One more instruction before the others.
fn put(out: &mut Backward, op: Op, to: u32, left: u32, right: u32) -> Result<(), NoCode>
    ensures made { OnOk result (out.new ≡ instr op to left right ∷ out.old) }
    ensures refused { IfErr result (λ kind. kind ≡ Memory) }
{
    let instr = Instr {
        op,
        to,
        left,
        right,
    };
    match out.add(instr) {
        Ok(()) => Ok(()),
        Err(_) => Err(NoCode::Memory),
    }
}

/// The cell after this one.
fn next(t: u32) -> Result<u32, NoCode>
    ensures { IsCounted (t + 1) result }
{
    t.checked_add(1).ok_or(NoCode::Large)
}

/// A number of instructions, as a jump counts them.
fn counted(length: usize) -> Result<u32, NoCode>
    ensures { IsCounted length result }
{
    u32::try_from(length).map_err(|_| NoCode::Large)
}

/// The code of an operand, which is none where it is a cell already.
#[cycle(emit)]
fn emit_held(
    out: &mut Backward,
    places: &Places<'_>,
    expr: &Expr,
    to: u32,
    free: u32,
) -> Result<(), NoCode>
    ensures { Emits (held_code (piece_of (places_of places.now) expr.now) to free) (piece_of (places_of places.now) expr.now).known free out.old out.new result }
{
    match leaf(places, expr) {
        Some(_) => Ok(()),
        None => emit(out, places, expr, to, free),
    }
}

/// The code of an operand and of an operator over it.
#[cycle(emit)]
fn emit_unary(
    out: &mut Backward,
    places: &Places<'_>,
    op: Op,
    part: &Expr,
    to: u32,
    free: u32,
) -> Result<(), NoCode>
    ensures { Emits (unary_code op (piece_of (places_of places.now) part.now) to free) (piece_of (places_of places.now) part.now).known free out.old out.new result }
{
    let place = leaf(places, part).unwrap_or(to);
    put(out, op, to, place, place)?;
    emit_held(out, places, part, to, free)
}

/// The code of two operands and of an operator over them.
#[cycle(emit)]
fn emit_binary(
    out: &mut Backward,
    places: &Places<'_>,
    op: Op,
    left: &Expr,
    right: &Expr,
    to: u32,
    free: u32,
) -> Result<(), NoCode>
    ensures { Emits (binary_code op (piece_of (places_of places.now) left.now) (piece_of (places_of places.now) right.now) to free) ((piece_of (places_of places.now) left.now).known && (piece_of (places_of places.now) right.now).known) free out.old out.new result }
{
    let left_place = leaf(places, left).unwrap_or(to);
    let right_place = leaf(places, right).unwrap_or(free);
    put(out, op, to, left_place, right_place)?;
    emit_held(out, places, right, free, next(free)?)?;
    emit_held(out, places, left, to, free)
}

/// The code of a part that is passed by where the word so far decides.
#[cycle(emit)]
fn emit_lazy(
    out: &mut Backward,
    places: &Places<'_>,
    op: Op,
    part: &Expr,
    to: u32,
    free: u32,
) -> Result<(), NoCode>
    ensures { Emits (lazy_code op (piece_of (places_of places.now) part.now) to free) (piece_of (places_of places.now) part.now).known free out.old out.new result }
{
    let before = out.len();
    emit(out, places, part, to, free)?;
    let length = counted(out.len() - before)?;
    put(out, op, length, to, to)
}

/// The code of one more part of a chain.
#[cycle(emit)]
fn emit_joined(
    out: &mut Backward,
    places: &Places<'_>,
    op: ChainOp,
    part: &Expr,
    to: u32,
    free: u32,
) -> Result<(), NoCode>
    ensures { Emits (joined_code op (piece_of (places_of places.now) part.now) to free) (piece_of (places_of places.now) part.now).known free out.old out.new result }
{
    if is_short(op) {
        return emit_lazy(out, places, op_of(op), part, to, free);
    }
    let place = leaf(places, part).unwrap_or(free);
    put(out, op_of(op), to, to, place)?;
    emit_held(out, places, part, free, next(free)?)
}

/// The code of the first two parts of a chain.
#[cycle(emit)]
fn emit_first(
    out: &mut Backward,
    places: &Places<'_>,
    op: ChainOp,
    left: &Expr,
    right: &Expr,
    to: u32,
    free: u32,
) -> Result<(), NoCode>
    ensures { Emits (first_code op (piece_of (places_of places.now) left.now) (piece_of (places_of places.now) right.now) to free) ((piece_of (places_of places.now) left.now).known && (piece_of (places_of places.now) right.now).known) free out.old out.new result }
{
    if is_short(op) {
        emit_lazy(out, places, op_of(op), right, to, free)?;
        return emit(out, places, left, to, free);
    }
    emit_binary(out, places, op_of(op), left, right, to, free)
}

/// The code of a chain, from its last part to its first.
#[cycle(emit)]
fn emit_chain(
    out: &mut Backward,
    places: &Places<'_>,
    parts: &[Expr],
    ops: &[ChainOp],
    to: u32,
    free: u32,
) -> Result<(), NoCode>
    ensures { Emits (chain_code ops.now (map (piece_of (places_of places.now)) parts.now) to free) (is_chain ops.now (map (piece_of (places_of places.now)) parts.now) && all_known (map (piece_of (places_of places.now)) parts.now)) free out.old out.new result }
{
    let Some((first, rest)) = parts.split_first() else {
        return Err(NoCode::Unknown);
    };
    let Some((second, rest)) = rest.split_first() else {
        return Err(NoCode::Unknown);
    };
    let Some((op, others)) = ops.split_first() else {
        return Err(NoCode::Unknown);
    };
    if rest.len() != others.len() {
        return Err(NoCode::Unknown);
    }
    let mut i = rest.len();
    while 0 < i {
        i -= 1;
        emit_joined(out, places, others[i], &rest[i], to, free)?;
    }
    emit_first(out, places, *op, first, second, to, free)
}

/// The code of a condition and its branch, with a jump past so many instructions behind it.
#[cycle(emit)]
fn emit_turn(
    out: &mut Backward,
    places: &Places<'_>,
    condition: &Expr,
    branch: &Expr,
    after: u32,
    to: u32,
    free: u32,
) -> Result<(), NoCode>
    ensures { Emits (turn_code (piece_of (places_of places.now) condition.now) (piece_of (places_of places.now) branch.now) after to free) ((piece_of (places_of places.now) condition.now).known && (piece_of (places_of places.now) branch.now).known) free out.old out.new result }
{
    put(out, Op::Skip, after, to, to)?;
    let before = out.len();
    emit(out, places, branch, to, free)?;
    let length = counted(out.len() - before)?;
    let place = leaf(places, condition).unwrap_or(to);
    put(out, Op::SkipIfFalse, next(length)?, place, place)?;
    emit_held(out, places, condition, to, free)
}

/// The code of a choice, from its last branch to its first.
#[cycle(emit)]
fn emit_choice(
    out: &mut Backward,
    places: &Places<'_>,
    conditions: &[Expr],
    branches: &[Expr],
    other: &Expr,
    to: u32,
    free: u32,
) -> Result<(), NoCode>
    ensures { Emits (if_code (map (piece_of (places_of places.now)) conditions.now) (map (piece_of (places_of places.now)) branches.now) (piece_of (places_of places.now) other.now) to free) (is_if (map (piece_of (places_of places.now)) conditions.now) (map (piece_of (places_of places.now)) branches.now) && (all_known (map (piece_of (places_of places.now)) conditions.now) && (all_known (map (piece_of (places_of places.now)) branches.now) && (piece_of (places_of places.now) other.now).known))) free out.old out.new result }
{
    if conditions.len() != branches.len() {
        return Err(NoCode::Unknown);
    }
    let before = out.len();
    emit(out, places, other, to, free)?;
    let mut i = conditions.len();
    while 0 < i {
        i -= 1;
        let after = counted(out.len() - before)?;
        emit_turn(out, places, &conditions[i], &branches[i], after, to, free)?;
    }
    Ok(())
}

/// The code of a call.
#[cycle(emit)]
fn emit_call(
    out: &mut Backward,
    places: &Places<'_>,
    function: Fun,
    parts: &[Expr],
    to: u32,
    free: u32,
) -> Result<(), NoCode>
    ensures { Emits (call_code function (map (piece_of (places_of places.now)) parts.now) to free) (is_call (map (piece_of (places_of places.now)) parts.now) && all_known (map (piece_of (places_of places.now)) parts.now)) free out.old out.new result }
{
    let Some((first, rest)) = parts.split_first() else {
        return Err(NoCode::Unknown);
    };
    let Some((second, rest)) = rest.split_first() else {
        return emit_unary(out, places, op_of_call(function), first, to, free);
    };
    if !rest.is_empty() {
        return Err(NoCode::Unknown);
    }
    emit_binary(out, places, op_of_call(function), first, second, to, free)
}

/// The code that moves the word of a cell, if there is such a cell.
fn emit_cell(out: &mut Backward, cell: Option<u32>, to: u32) -> Result<(), NoCode>
    ensures { (free : ℕ) (truth : Bool) → Emits ((cell_piece cell truth).code to free) (cell_piece cell truth).known free out.old out.new result }
{
    match cell {
        Some(place) => put(out, Op::Move, to, place, place),
        None => Err(NoCode::Unknown),
    }
}

/// Puts the code of an expression before the others: its value goes into the cell `to`, and the cells from `free` on are
/// its own. `Unknown` comes only where the expression is not known, and `Large` only where the first free cell and the
/// number of the expression's instructions have together no number of 32 bits. Where it answers an error, what stands
/// before the others is left open.
#[cycle(emit)]
#[tactic(auto, using(crate::proofs::Pieces::pieces))]
pub fn emit(
    out: &mut Backward,
    places: &Places<'_>,
    expr: &Expr,
    to: u32,
    free: u32,
) -> Result<(), NoCode>
    ensures { Emits ((piece_of (places_of places.now) expr.now).code to free) (piece_of (places_of places.now) expr.now).known free out.old out.new result }
{
    match expr {
        Expr::Chain(parts, ops) => emit_chain(
            out,
            places,
            parts.as_slice(),
            ops.as_slice(),
            to,
            free,
        ),
        Expr::Relation(rel, left, right) => emit_binary(
            out,
            places,
            op_of_relation(*rel),
            left.get(),
            right.get(),
            to,
            free,
        ),
        Expr::Neg(part) => emit_unary(out, places, Op::Negate, part.get(), to, free),
        Expr::Not(part) => emit_unary(out, places, Op::Invert, part.get(), to, free),
        Expr::If(conditions, branches, other) => emit_choice(
            out,
            places,
            conditions.as_slice(),
            branches.as_slice(),
            other.get(),
            to,
            free,
        ),
        Expr::Apply(function, parts) => emit_call(
            out,
            places,
            *function,
            parts.as_slice(),
            to,
            free,
        ),
        Expr::Const(_) => emit_cell(out, leaf(places, expr), to),
        Expr::Read(_) => emit_cell(out, leaf(places, expr), to),
        Expr::Previous(_) => emit_cell(out, leaf(places, expr), to),
        Expr::FirstTick(_) => emit_cell(out, leaf(places, expr), to),
        Expr::Hold(_) => emit_cell(out, leaf(places, expr), to),
        Expr::Convert(_, _) => emit_cell(out, leaf(places, expr), to),
        Expr::IntervalTimes(_, times) => match measured(places.here.measures, *times) {
            Some(found) => put(out, Op::Guard, to, found.unfit, found.cell),
            None => Err(NoCode::Unknown),
        },
        Expr::Sample(part, _) => emit(out, &from_left(places), part.get(), to, free),
    }
}
