//! The words of all keys.
ghost use Rattle.std.specs.Prelude.{◌≡◌, ◌≤◌, length, All};
ghost use Rattle.tree_step.specs.Starts.{sight_of};
ghost use Rattle.part_words.specs.Words.{IsMeasuredClock, AreFilled};

use crate::word::word_for;
use cell_keys::CellKey;
use tree_step::{Cell, Scene};

/// Writes the word of each key into its cell. The places of clocks in keys are those of the scene. It takes no memory.
pub fn fill_words(scene: &Scene<'_>, cells: &[Cell], keys: &[CellKey], words: &mut [i64])
    requires long { length keys.now ≤ length words.old }
    requires measurable { All IsMeasuredClock scene.now.clocks.now }
    ensures words { AreFilled (sight_of scene.entry.now) cells.now keys.now words.new }
    ensures size { length words.new ≡ length words.old }
{
    for c in 0..keys.len() {
        let key = keys[c];
        words[c] = word_for(scene, cells, key);
    }
}
