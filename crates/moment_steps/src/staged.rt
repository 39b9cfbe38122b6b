ghost use Rattle.std.specs.Prelude.{◌≡◌};
ghost use Rattle.moment_body.specs.Stepping.{CanFill, FillsInputs, CanTakePure, TakesPure, CanTakeRest, TakesRest, CanKeep, Keeps};
ghost use Rattle.moment_steps.specs.Steps.{stages_of, stands_of, based_of, ended_of};

use crate::gathering::gather;
use crate::keeping::keep_left;
use crate::opening::{open_plain, open_ticking};
use crate::piece::{Piece, Scene};
use crate::stepping::step_parts;
use crate::taking::{UnclockedReads, take_unclocked};
use crate::telling::{earlier, least_told};
use crate::ticks::ask_ticks;
use first_failure::EquationFailing;
use flat_model::{Left, Moment};
use fork_steps::Slot;
use moment_body::ClockedModel;
use outside_io::Gate;
use std::alloc::Global;
use std::thread::Threads;
use sync_values::{List, Value};
use tick_plan::Ticking;
use tree_step::{Cell, ClockNow, Entry};

/// The uses of a model by their stages, with all that is kept of it between moments and room for one.
#[derive(Drop)]
pub struct StagedSteps {
    /// The uses that no clock decides of, in their order.
    pub pure: List<Entry>,
    /// The unclocked uses that wait for a clock, in their order.
    pub waiting: List<Entry>,
    /// What these uses read.
    pub reads: UnclockedReads,
    /// What is shown of no clock: that it ticks.
    pub always: List<ClockNow>,
    /// The numbers of all names, which are also the places of their cells.
    pub numbers: List<u32>,
    /// A cell for each name.
    pub cells: Vec<Cell>,
    /// Which classes tick at a moment.
    pub ticks: Vec<bool>,
    /// The places of the cells of the base partitions.
    pub places: List<u32>,
    /// The base partitions by their numbers.
    pub slots: Vec<Slot<Piece>>,
    /// The values at the moment before, and the last ones up to it.
    pub left: Left,
    /// How many threads may step base partitions.
    pub workers: u32,
    pub alloc: Global,
}

impl StagedSteps {
    /// Puts the values of the inputs at a moment, and no others.
    pub fn fill_inputs(&self, model: &ClockedModel, at: Moment, now: &mut [Option<Value>])
        requires { CanFill model.now at now.old }
        ensures { FillsInputs model.entry.now at now.old now.new }
    {
        moment_inputs::fill_inputs(&model.table, at, now);
    }

    /// Takes the uses that no clock decides of, over the values of the inputs. An equation is evaluated only where a name that
    /// it reads changed. The answer is the failing equation of the least number. It takes no memory.
    pub fn take_pure(
        &mut self,
        model: &ClockedModel,
        now: &mut [Option<Value>],
    ) -> Option<EquationFailing>
        requires { CanTakePure (stages_of self.old) (stands_of self.old) model.now now.old }
        ensures same { stages_of self.new ≡ stages_of self.old }
        ensures takes { TakesPure (stages_of self.old) (stands_of self.old) model.entry.now now.old (based_of self.new) now.new result }
    {
        let numbers = self.numbers.as_slice();
        let cells = self.cells.as_mut_slice();
        open_plain(numbers, self.left.last.as_slice(), now, cells);
        take_unclocked(
            &model.flat,
            numbers,
            &self.left,
            self.always.as_slice(),
            self.pure.as_slice(),
            self.reads.pure.as_slice(),
            cells,
            now,
        )
    }

    /// Takes the uses of each base partition of which a class ticks, side by side, and then those that wait for a clock. Of
    /// these an equation is evaluated only where a name that it reads changed, or one that it holds may tick. The answer is the
    /// failing equation of the least number. It takes no memory but that of threads.
    pub fn take_rest<R: Threads + Sync, G: Gate + Sync, P: Ticking>(
        &mut self,
        rt: &R,
        gate: &G,
        model: &ClockedModel,
        at: Moment,
        plan: &P,
        answers: &[Option<bool>],
        now: &mut [Option<Value>],
    ) -> Option<EquationFailing>
        requires { CanTakeRest (stages_of self.old) (based_of self.old) model.now at (P.ticks plan.now) answers.now now.old }
        ensures same { stages_of self.new ≡ stages_of self.old }
        ensures takes { TakesRest (stages_of self.old) (based_of self.old) model.entry.now at (P.ticks plan.entry.now) answers.entry.now now.old (ended_of self.new) now.new result }
    {
        let numbers = self.numbers.as_slice();
        let places = self.places.as_slice();
        let ticks = self.ticks.as_mut_slice();
        let slots = self.slots.as_mut_slice();
        let cells = self.cells.as_mut_slice();
        ask_ticks(plan, ticks);
        let scene = Scene {
            flat: &model.flat,
            places,
            at,
            ticks,
            answers,
            left: &self.left,
        };
        let partitions = model.clocking.partitions.as_slice();
        step_parts(rt, gate, self.workers, partitions, &scene, slots);
        gather(&model.clocking, numbers, places, slots, now);
        let told = least_told(slots);
        let last = self.left.last.as_slice();
        open_ticking(&model.clocking, ticks, answers, numbers, last, now, cells);
        let behind = take_unclocked(
            &model.flat,
            numbers,
            &self.left,
            self.always.as_slice(),
            self.waiting.as_slice(),
            self.reads.waiting.as_slice(),
            cells,
            now,
        );
        earlier(behind, told)
    }

    /// Keeps the values of the moment for the moments behind it. It takes no memory.
    pub fn keep(&mut self, now: &[Option<Value>])
        requires { CanKeep (stages_of self.old) (ended_of self.old) now.now }
        ensures same { stages_of self.new ≡ stages_of self.old }
        ensures keeps { Keeps (stages_of self.old) (ended_of self.old) now.now (stands_of self.new) }
    {
        keep_left(self.alloc, now, &mut self.left);
    }
}
