ghost use Rattle.std.specs.Prelude.{◌≡◌, length};
ghost use Rattle.step_code.specs.Machine.{AreWithin};
ghost use Rattle.step_lines.specs.Stretches.{place_in, RunsLines};

use crate::stretch::Stretch;
use step_code::run;
use sync_values::Fail;

/// The place of the equation that fails first, and how it fails.
#[derive(Clone, Copy, Debug, PartialEq, Eq)]
pub struct Failing {
    pub place: usize,
    pub kind: Fail,
}

/// The place of the last mark that is above the number of instructions left, or the first place.
fn place_of(marks: &[usize], left: usize) -> usize
    ensures { result ≡ place_in marks.now left }
{
    let mut next = 1;
    while next < marks.len() && left < marks[next] {
        next += 1;
    }
    next - 1
}

/// Runs the code of several equations. The cells then hold the values of all of them, or of those before the first
/// that fails, and which that is is told. It takes no memory.
pub fn run_lines(stretch: &Stretch, cells: &mut [i64]) -> Option<Failing>
    requires { AreWithin (length cells.old) stretch.now.code.items }
    ensures runs { RunsLines stretch.now cells.old cells.new result }
    ensures size { length cells.new ≡ length cells.old }
{
    match run(&stretch.code, cells) {
        None => None,
        Some(stop) => Some(Failing {
            place: place_of(&stretch.marks, stop.left),
            kind: stop.kind,
        }),
    }
}
