//! Uses taken one after the other.
ghost use Rattle.std.specs.Prelude.{◌≡◌, None, Some, length};
ghost use Rattle.first_failure.specs.Careful.{less_of};
ghost use Rattle.tree_step.specs.Starts.{sight_of, CanStart};
ghost use Rattle.tree_step.specs.Takes.{TakesUses};
ghost use Rattle.tree_step.specs.private.Taking as spec;

use crate::cell::{Cell, put_at};
use crate::frame::{ClockNow, Frame};
use crate::lacking::{Sought, equation_lacks};
use eq_orient::kinds::Spine;
use eq_orient::solve_value;
use first_failure::EquationFailing;
use flat_model::{Equation, FlatModel, Left};
use sync_values::{Fail, Value};

/// A use with the side on which its name stands in its equation, and the place of its clock among those that are shown.
#[derive(Clone, Copy)]
pub struct Entry {
    pub equation: u32,
    pub name: u32,
    pub spine: Spine,
    pub clock: u32,
}

/// What stays the same while uses are taken at a moment: the model, the place of each name's cell, the values at the moment
/// before, and what is shown of clocks.
#[derive(Drop)]
pub struct Scene<'a> {
    pub flat: &'a FlatModel,
    pub places: &'a [u32],
    pub left: &'a Left,
    pub clocks: &'a [ClockNow],
}

/// What comes of a use.
#[derive(Clone, Copy)]
pub(crate) enum Outcome {
    /// It does not count, or something that it reads has no value.
    Rests,
    Gives(Value),
    Fails(Fail),
}

/// Whether a use counts: its clock ticks, and what its equation reads now has values.
fn is_ready(clock: &ClockNow, equation: &Equation, sought: &Sought<'_>) -> bool
    ensures { result ≡ spec.ready_in sought.now.places.now sought.now.cells.now sought.now.own (Some clock.now) (Some equation.now) }
{
    clock.ticks && !equation_lacks(equation, sought)
}

/// What a use gives over the values that are there.
#[tactic(auto, using(crate::proofs::Taken::unready_at))]
pub(crate) fn take_one(scene: &Scene<'_>, cells: &[Cell], entry: Entry) -> Outcome
    requires { spec.CanTake (sight_of scene.now) cells.now entry }
    ensures { spec.OutcomeOf (sight_of scene.now) cells.now entry result }
{
    let Some(clock) = scene.clocks.get(entry.clock as usize) else {
        return Outcome::Rests;
    };
    let Some(equation) = scene.flat.equations.as_slice().get(entry.equation as usize) else {
        return Outcome::Rests;
    };
    let sought = Sought {
        places: scene.places,
        cells,
        own: entry.name,
    };
    if !is_ready(clock, equation, &sought) {
        return Outcome::Rests;
    }
    let frame = Frame {
        places: scene.places,
        cells,
        left: scene.left,
        clock: *clock,
    };
    match solve_value(equation, entry.name, entry.spine, &frame) {
        Ok(value) => Outcome::Gives(value),
        Err(kind) => Outcome::Fails(kind),
    }
}

/// Of the failure that is told so far and a further one, that of the lesser equation.
fn lesser(told: Option<EquationFailing>, other: EquationFailing) -> EquationFailing
    ensures { result ≡ less_of told other }
{
    match told {
        Some(failing) if failing.equation <= other.equation => failing,
        _ => other,
    }
}

/// What is told once a use was taken: of the failures the one of the least equation.
pub(crate) fn told_after(
    told: Option<EquationFailing>,
    equation: u32,
    outcome: Outcome,
) -> Option<EquationFailing>
    ensures { result ≡ spec.told_after told equation outcome }
{
    match outcome {
        Outcome::Fails(kind) => Some(lesser(told, EquationFailing { equation, kind })),
        Outcome::Gives(_) => told,
        Outcome::Rests => told,
    }
}

/// Puts a value that was given into the cell of its name.
pub(crate) fn put(places: &[u32], cells: &mut [Cell], name: u32, outcome: Outcome)
    ensures cells { cells.new ≡ spec.cells_after places.now cells.old name outcome }
    ensures size { length cells.new ≡ length cells.old }
{
    match outcome {
        Outcome::Gives(value) => put_at(places, cells, name, value),
        Outcome::Rests => {}
        Outcome::Fails(_) => {}
    }
}

/// Takes uses in their order over the values that are there, and goes on behind one that fails. Each counts where its class
/// ticks and all that it reads now has values; it gives the only value of its name with which both sides of its equation
/// are equal, or fails. The answer is the failing equation of the least number. It takes no memory.
///
/// Source: MLS 3.6, chapter 16, "Clocked Equations", and for what is found past a failure this project's own.
pub fn take_uses(
    scene: &Scene<'_>,
    entries: &[Entry],
    cells: &mut [Cell],
) -> Option<EquationFailing>
    requires { CanStart (sight_of scene.now) entries.now cells.old }
    ensures takes { TakesUses (sight_of scene.entry.now) entries.now cells.old cells.new result }
    ensures size { length cells.new ≡ length cells.old }
{
    let mut told = None;
    for entry in entries {
        let outcome = take_one(scene, cells, *entry);
        told = told_after(told, entry.equation, outcome);
        put(scene.places, cells, entry.name, outcome);
    }
    told
}
