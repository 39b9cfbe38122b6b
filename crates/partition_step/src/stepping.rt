ghost use Rattle.std.specs.Prelude.{◌≡◌};
ghost use Rattle.tree_step.specs.Cells.{cell_in};
ghost use Rattle.tree_step.specs.Frames.{now_in};
ghost use Rattle.partition_step.specs.Steps.{CanStep, StepsFrom};

use crate::coding::take_any;
use crate::keeping::{keep, note};
use crate::part::{Outcome, Part};
use crate::showing::{begin, show};
use flat_model::{FlatModel, Left, Moment};
use sync_values::Value;
use tick_plan::Ticking;
use tree_step::{Scene, cell_at};

impl Part {
    /// Takes the uses of the part at a moment: each counts where its class ticks and all that it reads now has values. The
    /// answer is the first equation in flat order that fails, and then the part is for no further moment. `answers` has for
    /// each site the truth value of its condition, where that has one, and `left` the values at the moment before. At a
    /// moment at which none of its classes ticks a part need not be stepped. It takes no memory. Prepared code is run where
    /// there is some; trees are walked where there is none, and where an equation fails.
    ///
    /// Source: MLS 3.6, chapter 16, "Clocked Equations", and for what is found past a failure this project's own.
    pub fn step<T: Ticking>(
        &mut self,
        flat: &FlatModel,
        places: &[u32],
        moment: Moment,
        ticks: &T,
        answers: &[Option<bool>],
        left: &Left,
    ) -> Outcome
        requires { CanStep (record { equations = flat.now.equations; places = places.now; moment = moment; ticks = T.ticks ticks.now; answers = answers.now; left = left.now }) self.old }
        ensures { StepsFrom (record { equations = flat.now.equations; places = places.now; moment = moment; ticks = T.ticks ticks.now; answers = answers.now; left = left.entry.now }) self.old self.new result }
    {
        show(&self.classes, moment, ticks, &mut self.clocks);
        begin(
            self.entries.as_slice(),
            &self.classes,
            &self.clocks,
            answers,
            &mut self.cells,
        );
        let scene = Scene {
            flat,
            places,
            left,
            clocks: &self.clocks,
        };
        let failing = take_any(
            &mut self.code,
            &scene,
            self.entries.as_slice(),
            &mut self.cells,
        );
        match failing {
            Some(failing) => Outcome::Failed(failing),
            None => {
                keep(&mut self.cells);
                note(moment, &self.clocks, &mut self.classes);
                Outcome::Stepped
            }
        }
    }

    /// The value of a name of the part at the moment of the last step, where it has one. Before the first step there is
    /// none, nor is there one of any other name.
    pub fn value(&self, places: &[u32], name: u32) -> Option<Value>
        ensures { result ≡ now_in (cell_in places.now self.now.cells.items name) }
    {
        match cell_at(places, &self.cells, name) {
            Some(cell) => cell.now,
            None => None,
        }
    }
}
