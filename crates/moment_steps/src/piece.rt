ghost use Rattle.std.specs.Prelude.{◌≡◌};
ghost use Rattle.partition_step.specs.Steps.{failing_in as failing_of};

use crate::ticks::TickRow;
use first_failure::EquationFailing;
use flat_model::{FlatModel, Left, Moment};
use fork_steps::Step;
use partition_step::{Outcome, Part};

/// What all pieces read at a moment: the model, the place of each name's cell, the moment, which classes tick, what the
/// conditions of sites give, and the values at the moment before.
#[derive(Drop)]
pub struct Scene<'model, 'told, 'kept> {
    pub flat: &'model FlatModel,
    pub places: &'kept [u32],
    pub at: Moment,
    pub ticks: &'kept [bool],
    pub answers: &'told [Option<bool>],
    pub left: &'kept Left,
}

/// A base partition, with the failure that its last step told.
#[derive(Drop)]
pub struct Piece {
    pub part: Part,
    pub told: Option<EquationFailing>,
}

/// The failure that an outcome tells.
fn failing_in(outcome: Outcome) -> Option<EquationFailing>
    ensures { result ≡ failing_of outcome }
{
    match outcome {
        Outcome::Stepped => None,
        Outcome::Failed(failing) => Some(failing),
    }
}

impl<'model, 'told, 'kept> Step<Scene<'model, 'told, 'kept>> for Piece {
    ghost use Rattle.partition_step.specs.Steps.{CanStep};
    ghost use Rattle.moment_steps.specs.Stepped.{IsPieceStepped};
    ghost use Rattle.moment_steps.specs.Ticked.{row_ticks};

    ghost can_step = { λ piece scene. CanStep (record { equations = scene.flat.now.equations; places = scene.places.now; moment = scene.at; ticks = row_ticks scene.ticks.now; answers = scene.answers.now; left = scene.left.now }) piece.part };

    ghost steps = { λ old scene new. IsPieceStepped (record { equations = scene.flat.now.equations; places = scene.places.now; moment = scene.at; ticks = row_ticks scene.ticks.now; answers = scene.answers.now; left = scene.left.now }) old new };

    fn step(&mut self, scene: &Scene<'model, 'told, 'kept>) {
        let outcome = self.part.step(
            scene.flat,
            scene.places,
            scene.at,
            &TickRow { ticks: scene.ticks },
            scene.answers,
            scene.left,
        );
        self.told = failing_in(outcome);
    }
}
