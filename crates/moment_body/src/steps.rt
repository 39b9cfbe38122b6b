//! What remains of a moment beside its inputs, its sites, the choice of its fault and its row: the steps of its uses.
ghost use Rattle.std.specs.Prelude.{◌≡◌, ℕ};
ghost use Rattle.flat_model.specs.Assignment.{Assignment};
ghost use Rattle.flat_model.specs.Given.{Row};
ghost use Rattle.flat_model.specs.Setting.{Setting};
ghost use Rattle.moment_body.specs.Stages.{Stages};
ghost use Rattle.moment_body.specs.Stepping.{CanFill, FillsInputs, CanTakePure, TakesPure, CanTakeRest, TakesRest, CanKeep, Keeps};

use crate::model::ClockedModel;
use first_failure::EquationFailing;
use flat_model::Moment;
use outside_io::Gate;
use std::thread::Threads;
use sync_values::Value;
use tick_plan::Ticking;

/// The uses of a model, stepped at a moment stage by stage. Nothing here takes memory.
pub trait Steps {
    /// The uses by their stages.
    ghost stages: { Self → Stages };

    /// What is kept is that of an assignment before a moment of a setting.
    ghost stands: { Self → Setting → Assignment → ℕ → Type 0 };

    /// The pure uses were taken at the moment, and left this row.
    ghost based: { Self → Setting → Assignment → ℕ → Row → Type 0 };

    /// All uses were taken; the pure ones left the first row, and the last one is the second.
    ghost ended: { Self → Setting → Assignment → ℕ → Row → Row → Type 0 };

    /// Puts the values of the inputs at a moment, and no others.
    fn fill_inputs(&self, model: &ClockedModel, at: Moment, now: &mut [Option<Value>])
        requires { CanFill model.now at now.old }
        ensures { FillsInputs model.entry.now at now.old now.new };

    /// Takes the uses that no clock decides of, over the values of the inputs. The answer is the failing equation of the
    /// least number.
    fn take_pure(
        &mut self,
        model: &ClockedModel,
        now: &mut [Option<Value>],
    ) -> Option<EquationFailing>
        requires { CanTakePure (stages self.old) (stands self.old) model.now now.old }
        ensures same { stages self.new ≡ stages self.old }
        ensures takes { TakesPure (stages self.old) (stands self.old) model.entry.now now.old (based self.new) now.new result };

    /// Takes the uses of each base partition, side by side, and then those that wait for a clock. The answer is the failing
    /// equation of the least number.
    fn take_rest<R: Threads + Sync, G: Gate + Sync, P: Ticking + Sync>(
        &mut self,
        rt: &R,
        gate: &G,
        model: &ClockedModel,
        at: Moment,
        plan: &P,
        answers: &[Option<bool>],
        now: &mut [Option<Value>],
    ) -> Option<EquationFailing>
        requires { CanTakeRest (stages self.old) (based self.old) model.now at (P.ticks plan.now) answers.now now.old }
        ensures same { stages self.new ≡ stages self.old }
        ensures takes { TakesRest (stages self.old) (based self.old) model.entry.now at (P.ticks plan.entry.now) answers.entry.now now.old (ended self.new) now.new result };

    /// Keeps the values of the moment for the moments behind it.
    fn keep(&mut self, now: &[Option<Value>])
        requires { CanKeep (stages self.old) (ended self.old) now.now }
        ensures same { stages self.new ≡ stages self.old }
        ensures keeps { Keeps (stages self.old) (ended self.old) now.now (stands self.new) };
}
