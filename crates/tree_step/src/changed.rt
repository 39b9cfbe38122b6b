//! Unclocked uses, whose equations are evaluated only where something changed that they read.
ghost use Rattle.std.specs.Prelude.{◌≡◌, true, All, Some, length, slice_get};
ghost use Rattle.flat_model.specs.Values.{value_in};
ghost use Rattle.tree_step.specs.Changed.{CanStartChanged};
ghost use Rattle.tree_step.specs.Starts.{sight_of};
ghost use Rattle.tree_step.specs.Takes.{TakesUses};
ghost use Rattle.tree_step.specs.private.Changed as spec;
ghost use Rattle.tree_step.specs.private.Taking.{CanTake, OutcomeOf};

use crate::cell::{Cell, Standing, cell_at};
use crate::taking::{Entry, Outcome, Scene, put, take_one, told_after};
use first_failure::EquationFailing;
use flat_model::Left;
use sync_values::{List, Value};

/// The names that an equation reads at a moment: those that stand bare in it, and those whose last values it reads.
#[derive(Drop)]
pub struct Reads {
    pub bare: List<u32>,
    pub held: List<u32>,
}

/// Whether two values are one.
fn is_one(one: Value, other: Value) -> bool
    ensures { result ≡ true → one ≡ other }
{
    match (one, other) {
        (Value::Int(one), Value::Int(other)) => one == other,
        (Value::Bool(one), Value::Bool(other)) => one == other,
        (Value::Int(_), Value::Bool(_)) => false,
        (Value::Bool(_), Value::Int(_)) => false,
    }
}

/// The value of a name at the moment before.
fn left_value(left: &Left, name: u32) -> Option<Value>
    ensures { result ≡ value_in left.entry.now.now name }
{
    match left.now.as_slice().get(name as usize) {
        Some(value) => *value,
        None => None,
    }
}

/// Whether a name that stands bare has the value that it had at the moment before, or is the equation's own.
fn is_same(scene: &Scene<'_>, cells: &[Cell], own: u32, name: u32) -> bool
    ensures { result ≡ true → spec.IsSame (sight_of scene.now) cells.now own name }
{
    if name == own {
        return true;
    }
    let Some(cell) = cell_at(scene.places, cells, name) else {
        return false;
    };
    match (cell.now, left_value(scene.left, name)) {
        (Some(now), Some(before)) => is_one(now, before),
        (Some(_), None) => false,
        (None, _) => false,
    }
}

fn are_same(scene: &Scene<'_>, cells: &[Cell], own: u32, names: &[u32]) -> bool
    ensures { result ≡ true → All (spec.IsSame (sight_of scene.now) cells.now own) names.now }
{
    for name in names {
        if !is_same(scene, cells, own, *name) {
            return false;
        }
    }
    true
}

/// Whether the clock of a name is known to rest.
fn is_resting(scene: &Scene<'_>, cells: &[Cell], name: u32) -> bool
    ensures { result ≡ true → spec.IsResting (sight_of scene.now) cells.now name }
{
    let Some(cell) = cell_at(scene.places, cells, name) else {
        return false;
    };
    match cell.standing {
        Standing::Rests => true,
        Standing::Ticks => false,
        Standing::Unknown => false,
    }
}

fn are_resting(scene: &Scene<'_>, cells: &[Cell], names: &[u32]) -> bool
    ensures { result ≡ true → All (spec.IsResting (sight_of scene.now) cells.now) names.now }
{
    for name in names {
        if !is_resting(scene, cells, *name) {
            return false;
        }
    }
    true
}

/// The value that a use gave at the moment before, where nothing that its equation reads changed.
fn value_again(scene: &Scene<'_>, cells: &[Cell], entry: Entry, reads: &Reads) -> Option<Value>
    ensures { spec.IsAgain (sight_of scene.now) cells.now entry.name reads.now result }
{
    if are_same(scene, cells, entry.name, reads.bare.as_slice())
        && are_resting(scene, cells, reads.held.as_slice())
    {
        left_value(scene.left, entry.name)
    } else {
        None
    }
}

/// What a use gives: what it gave at the moment before where nothing changed, else what its equation gives.
fn take_or_keep(scene: &Scene<'_>, cells: &[Cell], entry: Entry, reads: &Reads) -> Outcome
    requires can { CanTake (sight_of scene.now) cells.now entry }
    requires again { spec.GivesAgain (sight_of scene.now) cells.now entry reads.now }
    ensures { OutcomeOf (sight_of scene.now) cells.now entry result }
{
    match value_again(scene, cells, entry, reads) {
        Some(value) => Outcome::Gives(value),
        None => take_one(scene, cells, entry),
    }
}

/// What a use gives, by the reads in its place.
fn take_by(scene: &Scene<'_>, cells: &[Cell], entry: Entry, reads: &[Reads], at: usize) -> Outcome
    requires can { CanTake (sight_of scene.now) cells.now entry }
    requires again { (own : Reads) → slice_get reads.now at ≡ Some own → spec.GivesAgain (sight_of scene.now) cells.now entry own }
    ensures { OutcomeOf (sight_of scene.now) cells.now entry result }
{
    match reads.get(at) {
        Some(reads) => take_or_keep(scene, cells, entry, reads),
        None => take_one(scene, cells, entry),
    }
}

/// Takes unclocked uses as `take_uses` does. An equation is evaluated only where a name that it reads has another value
/// than at the moment before, or one whose last value it reads may tick; else its name keeps the value that it had.
/// `reads` has what each reads. It takes no memory.
///
/// Source: this project's own.
pub fn take_changed(
    scene: &Scene<'_>,
    entries: &[Entry],
    reads: &[Reads],
    cells: &mut [Cell],
) -> Option<EquationFailing>
    requires { CanStartChanged (sight_of scene.now) entries.now reads.now cells.old }
    ensures takes { TakesUses (sight_of scene.entry.now) entries.now cells.old cells.new result }
    ensures size { length cells.new ≡ length cells.old }
{
    let mut told = None;
    for at in 0..entries.len() {
        let entry = entries[at];
        let outcome = take_by(scene, cells, entry, reads, at);
        told = told_after(told, entry.equation, outcome);
        put(scene.places, cells, entry.name, outcome);
    }
    told
}
