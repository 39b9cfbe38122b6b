ghost use Rattle.std.specs.Prelude.{◌≡◌, length, None, All};
ghost use Rattle.step_code.specs.Machine.{AreWithin};
ghost use Rattle.first_failure.specs.Careful.{IsLoneWithin, CarefulState, RunsEach};

use crate::bits::{are_set, is_set, set_bit};
use crate::least::{EquationFailing, lesser};
use step_lines::{Stretch, run_lines};

/// The code of one equation `name = side` by itself.
#[derive(Drop)]
pub struct LoneLine {
    /// Its number in the flat model.
    pub equation: u32,
    pub class: u32,
    /// The cell of its name.
    pub cell: u32,
    /// The cells of the other names that it reads now.
    pub reads: Vec<u32>,
    pub stretch: Stretch,
}

/// Runs equations one by one in their order, and tells the least of those that fail. One whose class rests, or that
/// reads a cell without a mark, is left out; the cell of each that has a value is marked. It takes no memory.
pub fn first_failure(
    lines: &[LoneLine],
    ticking: &[bool],
    marks: &mut [bool],
    cells: &mut [i64],
) -> Option<EquationFailing>
    requires { All (IsLoneWithin (length cells.old)) lines.now }
    ensures runs { RunsEach ticking.now lines.now (record { marks = marks.old; cells = cells.old; told = None }) (record { marks = marks.new; cells = cells.new; told = result }) }
    ensures size { length cells.new ≡ length cells.old }
    ensures places { length marks.new ≡ length marks.old }
{
    let mut told = None;
    let mut i = 0;
    while i < lines.len() {
        let one = &lines[i];
        if is_set(ticking, one.class) && are_set(marks, &one.reads) {
            match run_lines(&one.stretch, cells) {
                None => set_bit(marks, one.cell),
                Some(failing) => {
                    let other = EquationFailing {
                        equation: one.equation,
                        kind: failing.kind,
                    };
                    told = Some(lesser(told, other));
                }
            }
        }
        i += 1;
    }
    told
}
