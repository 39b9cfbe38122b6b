//! One moment by prepared code.
ghost use Rattle.std.specs.Prelude.{◌≡◌, true, false, length};
ghost use Rattle.tree_step.specs.Starts.{sight_of};
ghost use Rattle.coded_step.specs.Taking.{CanTakeCode, TakesByCode, IsSameCode};

use crate::landing::land;
use crate::running::run_ticking;
use part_code::Coded;
use part_words::fill_words;
use tree_step::{Cell, Entry, Scene};

/// Takes the uses of a base partition by their code. Where none of their equations fails they are taken, and the cells hold the
/// values; where one fails the answer is false, and the cells are as they were. It takes no memory.
///
/// Source: MLS 3.6, chapter 16, "Clocked Equations".
pub fn take_coded(
    code: &mut Coded,
    scene: &Scene<'_>,
    entries: &[Entry],
    cells: &mut [Cell],
) -> bool
    requires { CanTakeCode (sight_of scene.now) entries.now cells.old code.old }
    ensures takes { result ≡ true → TakesByCode (sight_of scene.entry.now) entries.now cells.old cells.new code.old }
    ensures rest { result ≡ false → cells.new ≡ cells.old }
    ensures size { length cells.new ≡ length cells.old }
    ensures same { IsSameCode code.old code.new }
{
    fill_words(scene, cells, code.keys.as_slice(), &mut code.words);
    if !run_ticking(&code.stretches, scene.clocks, &mut code.words) {
        return false;
    }
    land(scene.clocks, entries, &code.landings, &code.words, cells);
    true
}
