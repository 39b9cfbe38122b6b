//! The code of an expression, by the cells of keys.
ghost use Rattle.std.specs.Prelude.{◌≡◌, ℕ, Bool, ◌+◌, ◌++◌, ◌∷◌, [], length, map, OnOk, IfErr, Some, None, true, ◌&&◌};
ghost use Rattle.step_code.specs.declared.compile.NoCode.TheVariants.{Memory};
ghost use Rattle.step_code.specs.Emits.{Emits, IsCounted};
ghost use Rattle.step_code.specs.Code.{instr, cell_piece, is_chain, is_if, is_call, all_known, piece_of, chain_code, turn_code, if_code, call_code, joined_code, first_code, held_code, held_place, binary_code, unary_code, lazy_code, op_of_chain, op_of_rel, op_of_fun, is_lazy};
ghost use Rattle.keyed_code.specs.Table.{table_of};

use crate::table::{
    KeyTable, constant_cell, first_cell, from_left, last_cell, measured, previous_cell, value_cell,
};
use flat_model::{Expr, Fun};
use step_code::{Backward, Instr, NoCode, Op};
use sync_values::{ChainOp, Rel};

/// The cell of an expression that is a cell already.
#[tactic(auto, using(step_code::proofs::Pieces::leaves))]
fn leaf(table: &KeyTable<'_>, expr: &Expr) -> Option<u32>
    ensures { result ≡ (piece_of (table_of table.now) expr.now).leaf }
{
    match expr {
        Expr::Const(value) => constant_cell(table, *value),
        Expr::Read(name) => value_cell(table, *name),
        Expr::Previous(name) => previous_cell(table, *name),
        Expr::Hold(name) => last_cell(table, *name),
        Expr::Convert(_, name) => last_cell(table, *name),
        Expr::Chain(_, _) => None,
        Expr::Relation(_, _, _) => None,
        Expr::Neg(_) => None,
        Expr::Not(_) => None,
        Expr::If(_, _, _) => None,
        Expr::Apply(_, _) => None,
        Expr::FirstTick(_) => first_cell(table),
        Expr::IntervalTimes(_, _) => None,
        Expr::Sample(part, _) => leaf(&from_left(table), part.get()),
    }
}

/// The instruction of an operator; of `and` and `or` the skip.
fn op_of(op: ChainOp) -> Op
    ensures { result ≡ op_of_chain op }
{
    match op {
        ChainOp::Plus => Op::Add,
        ChainOp::Minus => Op::Subtract,
        ChainOp::Times => Op::Multiply,
        ChainOp::Over => Op::Divide,
        ChainOp::And => Op::SkipIfFalse,
        ChainOp::Or => Op::SkipIfTrue,
    }
}

/// Whether the operator evaluates its second part only where it is needed.
fn is_short(op: ChainOp) -> bool
    ensures { result ≡ is_lazy op }
{
    matches!(op, ChainOp::And | ChainOp::Or)
}

/// The instruction of a relation.
fn op_of_relation(rel: Rel) -> Op
    ensures { result ≡ op_of_rel rel }
{
    match rel {
        Rel::Less => Op::Less,
        Rel::LessEq => Op::LessEq,
        Rel::Greater => Op::Greater,
        Rel::GreaterEq => Op::GreaterEq,
        Rel::Equal => Op::Equal,
        Rel::Unequal => Op::Unequal,
    }
}

/// The instruction of a function.
fn op_of_call(function: Fun) -> Op
    ensures { result ≡ op_of_fun function }
{
    match function {
        Fun::Div => Op::Divide,
        Fun::Mod => Op::Modulo,
        Fun::Rem => Op::Remainder,
        Fun::Abs => Op::Magnitude,
        Fun::Min => Op::Lesser,
        Fun::Max => Op::Larger,
    }
}

/// One more instruction before the others.
fn put(out: &mut Backward, op: Op, to: u32, left: u32, right: u32) -> Result<(), NoCode>
    ensures made { OnOk result (out.new ≡ instr op to left right ∷ out.old) }
    ensures refused { IfErr result (λ kind. kind ≡ Memory) }
{
    let instr = Instr {
        op,
        to,
        left,
        right,
    };
    match out.add(instr) {
        Ok(()) => Ok(()),
        Err(_) => Err(NoCode::Memory),
    }
}

/// The cell after this one.
fn next(t: u32) -> Result<u32, NoCode>
    ensures { IsCounted (t + 1) result }
{
    t.checked_add(1).ok_or(NoCode::Large)
}

/// A number of instructions, as a jump counts them.
fn counted(length: usize) -> Result<u32, NoCode>
    ensures { IsCounted length result }
{
    u32::try_from(length).map_err(|_| NoCode::Large)
}

/// The code of an operand, which is none where it is a cell already.
#[cycle(emit)]
fn emit_held(
    out: &mut Backward,
    table: &KeyTable<'_>,
    expr: &Expr,
    to: u32,
    free: u32,
) -> Result<(), NoCode>
    ensures { Emits (held_code (piece_of (table_of table.now) expr.now) to free) (piece_of (table_of table.now) expr.now).known free out.old out.new result }
{
    match leaf(table, expr) {
        Some(_) => Ok(()),
        None => emit(out, table, expr, to, free),
    }
}

/// The code of an operand and of an operator over it.
#[cycle(emit)]
fn emit_unary(
    out: &mut Backward,
    table: &KeyTable<'_>,
    op: Op,
    part: &Expr,
    to: u32,
    free: u32,
) -> Result<(), NoCode>
    ensures { Emits (unary_code op (piece_of (table_of table.now) part.now) to free) (piece_of (table_of table.now) part.now).known free out.old out.new result }
{
    let place = leaf(table, part).unwrap_or(to);
    put(out, op, to, place, place)?;
    emit_held(out, table, part, to, free)
}

/// The code of two operands and of an operator over them.
#[cycle(emit)]
fn emit_binary(
    out: &mut Backward,
    table: &KeyTable<'_>,
    op: Op,
    left: &Expr,
    right: &Expr,
    to: u32,
    free: u32,
) -> Result<(), NoCode>
    ensures { Emits (binary_code op (piece_of (table_of table.now) left.now) (piece_of (table_of table.now) right.now) to free) ((piece_of (table_of table.now) left.now).known && (piece_of (table_of table.now) right.now).known) free out.old out.new result }
{
    let left_place = leaf(table, left).unwrap_or(to);
    let right_place = leaf(table, right).unwrap_or(free);
    put(out, op, to, left_place, right_place)?;
    emit_held(out, table, right, free, next(free)?)?;
    emit_held(out, table, left, to, free)
}

/// The code of a part that is passed by where the word so far decides.
#[cycle(emit)]
fn emit_lazy(
    out: &mut Backward,
    table: &KeyTable<'_>,
    op: Op,
    part: &Expr,
    to: u32,
    free: u32,
) -> Result<(), NoCode>
    ensures { Emits (lazy_code op (piece_of (table_of table.now) part.now) to free) (piece_of (table_of table.now) part.now).known free out.old out.new result }
{
    let before = out.len();
    emit(out, table, part, to, free)?;
    let length = counted(out.len() - before)?;
    put(out, op, length, to, to)
}

/// The code of one more part of a chain.
#[cycle(emit)]
fn emit_joined(
    out: &mut Backward,
    table: &KeyTable<'_>,
    op: ChainOp,
    part: &Expr,
    to: u32,
    free: u32,
) -> Result<(), NoCode>
    ensures { Emits (joined_code op (piece_of (table_of table.now) part.now) to free) (piece_of (table_of table.now) part.now).known free out.old out.new result }
{
    if is_short(op) {
        return emit_lazy(out, table, op_of(op), part, to, free);
    }
    let place = leaf(table, part).unwrap_or(free);
    put(out, op_of(op), to, to, place)?;
    emit_held(out, table, part, free, next(free)?)
}

/// The code of the first two parts of a chain.
#[cycle(emit)]
fn emit_first(
    out: &mut Backward,
    table: &KeyTable<'_>,
    op: ChainOp,
    left: &Expr,
    right: &Expr,
    to: u32,
    free: u32,
) -> Result<(), NoCode>
    ensures { Emits (first_code op (piece_of (table_of table.now) left.now) (piece_of (table_of table.now) right.now) to free) ((piece_of (table_of table.now) left.now).known && (piece_of (table_of table.now) right.now).known) free out.old out.new result }
{
    if is_short(op) {
        emit_lazy(out, table, op_of(op), right, to, free)?;
        return emit(out, table, left, to, free);
    }
    emit_binary(out, table, op_of(op), left, right, to, free)
}

/// The code of a chain, from its last part to its first.
#[cycle(emit)]
fn emit_chain(
    out: &mut Backward,
    table: &KeyTable<'_>,
    parts: &[Expr],
    ops: &[ChainOp],
    to: u32,
    free: u32,
) -> Result<(), NoCode>
    ensures { Emits (chain_code ops.now (map (piece_of (table_of table.now)) parts.now) to free) (is_chain ops.now (map (piece_of (table_of table.now)) parts.now) && all_known (map (piece_of (table_of table.now)) parts.now)) free out.old out.new result }
{
    let Some((first, rest)) = parts.split_first() else {
        return Err(NoCode::Unknown);
    };
    let Some((second, rest)) = rest.split_first() else {
        return Err(NoCode::Unknown);
    };
    let Some((op, others)) = ops.split_first() else {
        return Err(NoCode::Unknown);
    };
    if rest.len() != others.len() {
        return Err(NoCode::Unknown);
    }
    let mut i = rest.len();
    while 0 < i {
        i -= 1;
        emit_joined(out, table, others[i], &rest[i], to, free)?;
    }
    emit_first(out, table, *op, first, second, to, free)
}

/// The code of a condition and its branch, with a jump past so many instructions behind it.
#[cycle(emit)]
fn emit_turn(
    out: &mut Backward,
    table: &KeyTable<'_>,
    condition: &Expr,
    branch: &Expr,
    after: u32,
    to: u32,
    free: u32,
) -> Result<(), NoCode>
    ensures { Emits (turn_code (piece_of (table_of table.now) condition.now) (piece_of (table_of table.now) branch.now) after to free) ((piece_of (table_of table.now) condition.now).known && (piece_of (table_of table.now) branch.now).known) free out.old out.new result }
{
    put(out, Op::Skip, after, to, to)?;
    let before = out.len();
    emit(out, table, branch, to, free)?;
    let length = counted(out.len() - before)?;
    let place = leaf(table, condition).unwrap_or(to);
    put(out, Op::SkipIfFalse, next(length)?, place, place)?;
    emit_held(out, table, condition, to, free)
}

/// The code of a choice, from its last branch to its first.
#[cycle(emit)]
fn emit_choice(
    out: &mut Backward,
    table: &KeyTable<'_>,
    conditions: &[Expr],
    branches: &[Expr],
    other: &Expr,
    to: u32,
    free: u32,
) -> Result<(), NoCode>
    ensures { Emits (if_code (map (piece_of (table_of table.now)) conditions.now) (map (piece_of (table_of table.now)) branches.now) (piece_of (table_of table.now) other.now) to free) (is_if (map (piece_of (table_of table.now)) conditions.now) (map (piece_of (table_of table.now)) branches.now) && (all_known (map (piece_of (table_of table.now)) conditions.now) && (all_known (map (piece_of (table_of table.now)) branches.now) && (piece_of (table_of table.now) other.now).known))) free out.old out.new result }
{
    if conditions.len() != branches.len() {
        return Err(NoCode::Unknown);
    }
    let before = out.len();
    emit(out, table, other, to, free)?;
    let mut i = conditions.len();
    while 0 < i {
        i -= 1;
        let after = counted(out.len() - before)?;
        emit_turn(out, table, &conditions[i], &branches[i], after, to, free)?;
    }
    Ok(())
}

/// The code of a call.
#[cycle(emit)]
fn emit_call(
    out: &mut Backward,
    table: &KeyTable<'_>,
    function: Fun,
    parts: &[Expr],
    to: u32,
    free: u32,
) -> Result<(), NoCode>
    ensures { Emits (call_code function (map (piece_of (table_of table.now)) parts.now) to free) (is_call (map (piece_of (table_of table.now)) parts.now) && all_known (map (piece_of (table_of table.now)) parts.now)) free out.old out.new result }
{
    let Some((first, rest)) = parts.split_first() else {
        return Err(NoCode::Unknown);
    };
    let Some((second, rest)) = rest.split_first() else {
        return emit_unary(out, table, op_of_call(function), first, to, free);
    };
    if !rest.is_empty() {
        return Err(NoCode::Unknown);
    }
    emit_binary(out, table, op_of_call(function), first, second, to, free)
}

/// The code that moves the word of a cell, if there is such a cell.
fn emit_cell(out: &mut Backward, cell: Option<u32>, to: u32) -> Result<(), NoCode>
    ensures { (free : ℕ) (truth : Bool) → Emits ((cell_piece cell truth).code to free) (cell_piece cell truth).known free out.old out.new result }
{
    match cell {
        Some(place) => put(out, Op::Move, to, place, place),
        None => Err(NoCode::Unknown),
    }
}

/// Puts the code of an expression before the others: its value goes into the cell `to`, and the cells from `free` on are
/// its own. `Unknown` comes only where the expression is not known, and `Large` only where the first free cell and the
/// number of the expression's instructions have together no number of 32 bits. Where it answers an error, what stands
/// before the others is left open.
#[cycle(emit)]
#[tactic(auto, using(step_code::proofs::Pieces::pieces))]
pub fn emit(
    out: &mut Backward,
    table: &KeyTable<'_>,
    expr: &Expr,
    to: u32,
    free: u32,
) -> Result<(), NoCode>
    ensures { Emits ((piece_of (table_of table.now) expr.now).code to free) (piece_of (table_of table.now) expr.now).known free out.old out.new result }
{
    match expr {
        Expr::Chain(parts, ops) => emit_chain(
            out,
            table,
            parts.as_slice(),
            ops.as_slice(),
            to,
            free,
        ),
        Expr::Relation(rel, left, right) => emit_binary(
            out,
            table,
            op_of_relation(*rel),
            left.get(),
            right.get(),
            to,
            free,
        ),
        Expr::Neg(part) => emit_unary(out, table, Op::Negate, part.get(), to, free),
        Expr::Not(part) => emit_unary(out, table, Op::Invert, part.get(), to, free),
        Expr::If(conditions, branches, other) => emit_choice(
            out,
            table,
            conditions.as_slice(),
            branches.as_slice(),
            other.get(),
            to,
            free,
        ),
        Expr::Apply(function, parts) => emit_call(
            out,
            table,
            *function,
            parts.as_slice(),
            to,
            free,
        ),
        Expr::Const(_) => emit_cell(out, leaf(table, expr), to),
        Expr::Read(_) => emit_cell(out, leaf(table, expr), to),
        Expr::Previous(_) => emit_cell(out, leaf(table, expr), to),
        Expr::FirstTick(_) => emit_cell(out, leaf(table, expr), to),
        Expr::Hold(_) => emit_cell(out, leaf(table, expr), to),
        Expr::Convert(_, _) => emit_cell(out, leaf(table, expr), to),
        Expr::IntervalTimes(_, times) => match measured(table, *times) {
            Some(found) => put(out, Op::Guard, to, found.unfit, found.cell),
            None => Err(NoCode::Unknown),
        },
        Expr::Sample(part, _) => emit(out, &from_left(table), part.get(), to, free),
    }
}
