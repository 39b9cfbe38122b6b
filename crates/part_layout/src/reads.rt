ghost use Rattle.std.specs.Prelude.{◌≡◌, ◌++◌};
ghost use Rattle.cell_keys.specs.Cells.{Adds};
ghost use Rattle.part_layout.specs.Reads.{before, value_keys, previous_keys, last_keys, first_keys, interval_keys, keys_read, all_keys_read};

use cell_keys::{CellKey, CellKeys, NoCell, Sight, word_of};
use flat_model::Expr;

/// One moment further back.
fn seen_before(sight: Sight) -> Sight
    ensures { result ≡ before sight }
{
    match sight {
        Sight::Now => Sight::Left,
        Sight::Left => Sight::Far,
        Sight::Far => Sight::Far,
    }
}

/// The cell of a name's value.
fn add_value(keys: &mut CellKeys, sight: Sight, name: u32) -> Result<(), NoCell>
    ensures { Adds keys.old (value_keys sight name) keys.new result }
{
    match sight {
        Sight::Now => keys.add(CellKey::Value(name)),
        Sight::Left => keys.add(CellKey::Left(name)),
        Sight::Far => Ok(()),
    }
}

/// The cells of a name's value and of that at the tick before.
fn add_previous(keys: &mut CellKeys, sight: Sight, name: u32) -> Result<(), NoCell>
    ensures { Adds keys.old (previous_keys sight name) keys.new result }
{
    match sight {
        Sight::Now => {
            keys.add(CellKey::Value(name))?;
            keys.add(CellKey::Previous(name))
        }
        Sight::Left => Ok(()),
        Sight::Far => Ok(()),
    }
}

/// The cell of a name's last value.
fn add_last(keys: &mut CellKeys, sight: Sight, name: u32) -> Result<(), NoCell>
    ensures { Adds keys.old (last_keys sight name) keys.new result }
{
    match sight {
        Sight::Now => keys.add(CellKey::Value(name)),
        Sight::Left => keys.add(CellKey::LeftLast(name)),
        Sight::Far => Ok(()),
    }
}

/// The cell that tells of a clock's first tick.
fn add_first(keys: &mut CellKeys, sight: Sight, class: u32) -> Result<(), NoCell>
    ensures { Adds keys.old (first_keys sight class) keys.new result }
{
    match sight {
        Sight::Now => keys.add(CellKey::First(class)),
        Sight::Left => Ok(()),
        Sight::Far => Ok(()),
    }
}

/// The cells of a clock's interval so many times.
fn add_interval(keys: &mut CellKeys, sight: Sight, class: u32, times: u32) -> Result<(), NoCell>
    ensures { Adds keys.old (interval_keys sight class times) keys.new result }
{
    match sight {
        Sight::Now => {
            keys.add(CellKey::Interval(class, times))?;
            keys.add(CellKey::Unfit(class, times))
        }
        Sight::Left => Ok(()),
        Sight::Far => Ok(()),
    }
}

/// The cells of what several expressions read.
#[cycle(reads)]
fn add_all(keys: &mut CellKeys, class: u32, sight: Sight, parts: &[Expr]) -> Result<(), NoCell>
    ensures { Adds keys.old (all_keys_read parts.now class sight) keys.new result }
{
    for part in parts {
        add_reads(keys, class, sight, part)?;
    }
    Ok(())
}

/// The cells of what two expressions read.
#[cycle(reads)]
fn add_two(
    keys: &mut CellKeys,
    class: u32,
    sight: Sight,
    left: &Expr,
    right: &Expr,
) -> Result<(), NoCell>
    ensures { Adds keys.old (keys_read left.now class sight ++ keys_read right.now class sight) keys.new result }
{
    add_reads(keys, class, sight, left)?;
    add_reads(keys, class, sight, right)
}

/// The cells of what a choice reads.
#[cycle(reads)]
fn add_choice(
    keys: &mut CellKeys,
    class: u32,
    sight: Sight,
    conditions: &[Expr],
    branches: &[Expr],
    other: &Expr,
) -> Result<(), NoCell>
    ensures { Adds keys.old (all_keys_read conditions.now class sight ++ (all_keys_read branches.now class sight ++ keys_read other.now class sight)) keys.new result }
{
    add_all(keys, class, sight, conditions)?;
    add_all(keys, class, sight, branches)?;
    add_reads(keys, class, sight, other)
}

/// The cells of what an expression of a class reads, seen from a moment. `Large` comes only where 2^32 or more cells are
/// needed.
#[cycle(reads)]
#[tactic(auto, using(crate::proofs::Reading::readings))]
pub(crate) fn add_reads(
    keys: &mut CellKeys,
    class: u32,
    sight: Sight,
    expr: &Expr,
) -> Result<(), NoCell>
    ensures { Adds keys.old (keys_read expr.now class sight) keys.new result }
{
    match expr {
        Expr::Const(value) => keys.add(CellKey::Constant(word_of(*value))),
        Expr::Read(name) => add_value(keys, sight, *name),
        Expr::Chain(parts, _) => add_all(keys, class, sight, parts.as_slice()),
        Expr::Relation(_, left, right) => add_two(keys, class, sight, left.get(), right.get()),
        Expr::Neg(part) => add_reads(keys, class, sight, part.get()),
        Expr::Not(part) => add_reads(keys, class, sight, part.get()),
        Expr::If(conditions, branches, other) => add_choice(
            keys,
            class,
            sight,
            conditions.as_slice(),
            branches.as_slice(),
            other.get(),
        ),
        Expr::Apply(_, parts) => add_all(keys, class, sight, parts.as_slice()),
        Expr::Previous(name) => add_previous(keys, sight, *name),
        Expr::FirstTick(_) => add_first(keys, sight, class),
        Expr::IntervalTimes(_, times) => add_interval(keys, sight, class, *times),
        Expr::Hold(name) => add_last(keys, sight, *name),
        Expr::Convert(_, name) => add_last(keys, sight, *name),
        Expr::Sample(part, _) => add_reads(keys, class, seen_before(sight), part.get()),
    }
}
