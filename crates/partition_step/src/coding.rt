//! Uses taken by their code, or else by their trees.
ghost use Rattle.std.specs.Prelude.{◌≡◌, length, IfSome};
ghost use Rattle.tree_step.specs.Starts.{sight_of, CanStart};
ghost use Rattle.coded_step.specs.Taking.{CanTakeCode};
ghost use Rattle.partition_step.specs.private.Coding.{TakesAny, IsSameOption};

use coded_step::take_coded;
use first_failure::EquationFailing;
use part_code::Coded;
use tree_step::{Cell, Entry, Scene, take_uses};

/// Takes uses by their code, where they have some and none of their equations fails, and else by their trees. The answer is the
/// failing equation of the least number. It takes no memory.
pub(crate) fn take_any(
    code: &mut Option<Coded>,
    scene: &Scene<'_>,
    entries: &[Entry],
    cells: &mut [Cell],
) -> Option<EquationFailing>
    requires start { CanStart (sight_of scene.now) entries.now cells.old }
    requires code { IfSome code.old (CanTakeCode (sight_of scene.now) entries.now cells.old) }
    ensures takes { TakesAny (sight_of scene.entry.now) entries.now cells.old cells.new code.old result }
    ensures size { length cells.new ≡ length cells.old }
    ensures same { IsSameOption code.old code.new }
{
    match code {
        Some(coded) => {
            if take_coded(coded, scene, entries, cells) {
                return None;
            }
        }
        None => {}
    }
    take_uses(scene, entries, cells)
}
