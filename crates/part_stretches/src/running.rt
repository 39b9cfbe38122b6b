ghost use Rattle.std.specs.Prelude.{◌≡◌, length, All};
ghost use Rattle.part_stretches.specs.Running.{tick_in, IsRunWithin, RunsFrom};

use step_lines::{Stretch, run_lines};
use sync_values::Fail;

/// The code of several equations of one class, in their order.
#[derive(Drop)]
pub struct ClassStretch {
    pub class: u32,
    pub stretch: Stretch,
}

/// The first equation to fail: the number of its stretch, its place there, and how it fails.
#[derive(Clone, Copy, Debug, PartialEq, Eq)]
pub struct PartFailing {
    pub stretch: usize,
    pub place: usize,
    pub kind: Fail,
}

/// Whether a class ticks; one without an entry does not.
fn ticks(ticking: &[bool], class: u32) -> bool
    ensures { result ≡ tick_in ticking.now class }
{
    match ticking.get(class as usize) {
        Some(tick) => *tick,
        None => false,
    }
}

/// Runs the stretches whose classes tick, one after the other, up to the first equation that fails. It takes no memory.
pub fn run_stretches(
    stretches: &[ClassStretch],
    ticking: &[bool],
    cells: &mut [i64],
) -> Option<PartFailing>
    requires { All (IsRunWithin (length cells.old)) stretches.now }
    ensures runs { RunsFrom 0 ticking.now stretches.now cells.old cells.new result }
    ensures size { length cells.new ≡ length cells.old }
{
    let mut i = 0;
    while i < stretches.len() {
        let one = &stretches[i];
        if ticks(ticking, one.class) {
            if let Some(failing) = run_lines(&one.stretch, cells) {
                return Some(PartFailing {
                    stretch: i,
                    place: failing.place,
                    kind: failing.kind,
                });
            }
        }
        i += 1;
    }
    None
}
