//! The cells of keys, as the code of an equation names them.
ghost use Rattle.std.specs.Prelude.{◌≡◌, ℕ, MatchOption, Some, None};
ghost use Rattle.step_code.specs.Code.{cells_before};
ghost use Rattle.part_layout.specs.Reads.{before};
ghost use Rattle.keyed_code.specs.Table.{table_of, keyed_interval, keyed_unfit};

use cell_keys::{CellKey, CellKeys, Sight, word_of};
use flat_model::FlatName;
use sync_values::Value;

/// The cells of keys, for an equation whose clock has a place among those of its base partition, seen from a moment.
#[derive(Clone, Copy, Drop)]
pub struct KeyTable<'a> {
    pub keys: &'a CellKeys,
    pub names: &'a [FlatName],
    pub clock: u32,
    pub sight: Sight,
}

/// The cells of the clock's interval so many times: the number, and 1 where it does not fit.
#[derive(Clone, Copy, Debug)]
pub(crate) struct Measure {
    pub cell: u32,
    pub unfit: u32,
}

fn sight_before(sight: Sight) -> Sight
    ensures { result ≡ before sight }
{
    match sight {
        Sight::Now => Sight::Left,
        Sight::Left => Sight::Far,
        Sight::Far => Sight::Far,
    }
}

/// The cells, seen from the moment before.
pub(crate) fn from_left<'a>(table: &KeyTable<'a>) -> KeyTable<'a>
    ensures { table_of result ≡ cells_before (table_of table.now) }
{
    KeyTable {
        keys: table.keys,
        names: table.names,
        clock: table.clock,
        sight: sight_before(table.sight),
    }
}

/// The cell of a constant.
pub(crate) fn constant_cell(table: &KeyTable<'_>, value: Value) -> Option<u32>
    ensures { result ≡ (table_of table.now 0).const value }
{
    table.keys.number(CellKey::Constant(word_of(value)))
}

/// The cell of a name's value.
pub(crate) fn value_cell(table: &KeyTable<'_>, name: u32) -> Option<u32>
    ensures { result ≡ (table_of table.now 0).now name }
{
    match table.sight {
        Sight::Now => table.keys.number(CellKey::Value(name)),
        Sight::Left => table.keys.number(CellKey::Left(name)),
        Sight::Far => None,
    }
}

/// The cell of a name's value at the tick before.
pub(crate) fn previous_cell(table: &KeyTable<'_>, name: u32) -> Option<u32>
    ensures { result ≡ (table_of table.now 0).previous name }
{
    match table.sight {
        Sight::Now => table.keys.number(CellKey::Previous(name)),
        Sight::Left => None,
        Sight::Far => None,
    }
}

/// The cell of a name's last value.
pub(crate) fn last_cell(table: &KeyTable<'_>, name: u32) -> Option<u32>
    ensures { result ≡ (table_of table.now 0).last name }
{
    match table.sight {
        Sight::Now => table.keys.number(CellKey::Value(name)),
        Sight::Left => table.keys.number(CellKey::LeftLast(name)),
        Sight::Far => None,
    }
}

/// The cell that tells whether the clock ticks for the first time.
pub(crate) fn first_cell(table: &KeyTable<'_>) -> Option<u32>
    ensures { result ≡ (table_of table.now 0).first }
{
    match table.sight {
        Sight::Now => table.keys.number(CellKey::First(table.clock)),
        Sight::Left => None,
        Sight::Far => None,
    }
}

/// The cells of the interval so many times, by the keys.
fn measured_now(keys: &CellKeys, clock: u32, times: u32) -> Option<Measure>
    ensures { MatchOption result (keyed_interval keys.now clock times ≡ None) (λ m. (keyed_interval keys.now clock times ≡ Some m.cell) × (keyed_unfit keys.now clock times ≡ m.unfit)) }
{
    let cell = keys.number(CellKey::Interval(clock, times))?;
    let unfit = keys
        .number(CellKey::Unfit(clock, times))
        .unwrap_or(keys.len());
    Some(Measure { cell, unfit })
}

/// The cells of the interval so many times.
pub(crate) fn measured(table: &KeyTable<'_>, times: u32) -> Option<Measure>
    ensures { MatchOption result ((table_of table.now 0).interval times ≡ None) (λ m. ((table_of table.now 0).interval times ≡ Some m.cell) × ((table_of table.now 0).unfit times ≡ m.unfit)) }
{
    match table.sight {
        Sight::Now => measured_now(table.keys, table.clock, times),
        Sight::Left => None,
        Sight::Far => None,
    }
}
