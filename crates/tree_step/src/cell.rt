//! What is kept of names, and where.
ghost use Rattle.std.specs.Prelude.{◌≡◌, length};
ghost use Rattle.tree_step.specs.Cells.{cell_in, put_in};

use sync_values::Value;

/// Whether the clock of a name ticks at a moment, as far as it is known. What no clock governs ticks.
#[derive(Clone, Copy)]
pub enum Standing {
    Ticks,
    Rests,
    /// The condition of its clock has no value.
    Unknown,
}

/// What is kept of a name: its last value before the moment, or its start, and its value at the moment where it has one.
#[derive(Clone, Copy)]
pub struct Cell {
    pub name: u32,
    pub kept: Value,
    pub standing: Standing,
    pub now: Option<Value>,
}

/// The cell of a name, where it has one. `places` has the place of each name's cell.
pub fn cell_at(places: &[u32], cells: &[Cell], name: u32) -> Option<Cell>
    ensures { result ≡ cell_in places.now cells.now name }
{
    match places.get(name as usize) {
        Some(place) => match cells.get(*place as usize) {
            Some(cell) => { if cell.name == name { Some(*cell) } else { None } }
            None => None,
        },
        None => None,
    }
}

/// Gives a name its value at the moment, where it has a cell.
pub fn put_at(places: &[u32], cells: &mut [Cell], name: u32, value: Value)
    ensures cells { cells.new ≡ put_in places.now cells.old name value }
    ensures size { length cells.new ≡ length cells.old }
{
    if let Some(place) = places.get(name as usize) {
        let at = *place as usize;
        if at < cells.len() && cells[at].name == name {
            cells[at].now = Some(value);
        }
    }
}
