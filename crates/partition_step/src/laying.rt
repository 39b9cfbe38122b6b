//! How the uses of a part are laid out.
ghost use Rattle.std.specs.Prelude.{◌≡◌, ℕ, ◌<◌, ◌≤◌, ◌+◌, ◌^◌, length, map, slice_get, slice_set, vec_len, Some, IfOk};
ghost use Rattle.flat_model.specs.Setting.{start_in};
ghost use Rattle.moment_theory.specs.Free.{IsReachedBy};
ghost use Rattle.eq_order.specs.Order.{use_of};
ghost use Rattle.eq_order.specs.declared.uses.Use.{Use};
ghost use Rattle.partition_step.specs.private.Laying as spec;

use crate::part::ClassKept;
use eq_order::Use;
use flat_model::{Clock, Clocking, FlatName};
use std::alloc::{AllocError, Global};
use sync_values::{List, Value};
use tree_step::{Cell, Entry, Standing};

/// Uses with the places of their classes, and these.
#[derive(Drop)]
pub(crate) struct Laid {
    pub entries: List<Entry>,
    pub classes: Vec<ClassKept>,
}

/// The class of an equation that a clock governs.
fn class_of(clocking: &Clocking, equation: u32) -> u32
    ensures { result ≡ spec.class_in clocking.now equation }
{
    match clocking.of_equation.as_slice().get(equation as usize) {
        Some(Some(class)) => *class,
        Some(None) => 0,
        None => 0,
    }
}

fn clock_of(clocking: &Clocking, class: u32) -> Clock
    ensures { result ≡ spec.clock_in clocking.now class }
{
    match clocking.clocks.as_slice().get(class as usize) {
        Some(clock) => *clock,
        None => Clock::Event {
            site: 0,
            factor: 1,
            shift: 0,
        },
    }
}

/// The place of a class that was kept last, or it is kept now.
fn place_of(classes: &mut Vec<ClassKept>, kept: ClassKept) -> Result<u32, AllocError>
    requires { vec_len classes.old < 2 ^ 32 }
    ensures place { IfOk result (λ place. spec.IsOpened classes.old.items kept classes.new.items place) }
    ensures size { vec_len classes.new ≤ vec_len classes.old + 1 }
{
    let count = classes.len();
    if count > 0 && classes[count - 1].class == kept.class {
        return Ok(count as u32 - 1);
    }
    classes.push(kept)?;
    Ok(count as u32)
}

/// Each use with the place of its class, where uses of one class that follow each other share it.
pub(crate) fn lay(alloc: Global, clocking: &Clocking, uses: &[Use]) -> Result<Laid, AllocError>
    requires { length uses.now < 2 ^ 32 }
    ensures { IfOk result (λ laid. spec.AreLaidOut clocking.now uses.now (length uses.now) laid.entries laid.classes.items) }
{
    let mut entries = List::with_capacity(alloc, uses.len())?;
    let mut classes = Vec::new(alloc);
    for entry in uses {
        let class = class_of(clocking, entry.equation);
        let kept = ClassKept {
            class,
            clock: clock_of(clocking, class),
            ticked: None,
        };
        let place = place_of(&mut classes, kept)?;
        entries.push(Entry {
            equation: entry.equation,
            name: entry.name,
            spine: entry.spine,
            clock: place,
        })?;
    }
    Ok(Laid { entries, classes })
}

/// The value of a name before its first tick.
fn start_of(names: &[FlatName], name: u32) -> Value
    ensures { result ≡ start_in (slice_get names.now name) }
{
    match names.get(name as usize) {
        Some(found) => found.start,
        None => Value::Bool(false),
    }
}

/// The cells of the names that uses reach, before the first moment.
pub(crate) fn cells_of(
    alloc: Global,
    names: &[FlatName],
    uses: &[Use],
) -> Result<Vec<Cell>, AllocError>
    ensures { IfOk result (λ cells. cells.items ≡ map (spec.new_cell names.now) uses.now) }
{
    let mut cells = Vec::with_capacity(alloc, uses.len())?;
    for entry in uses {
        cells.push(Cell {
            name: entry.name,
            kept: start_of(names, entry.name),
            standing: Standing::Rests,
            now: None,
        })?;
    }
    Ok(cells)
}

/// Sets the place of a name, where the table has one for it.
fn set_place(places: &mut [u32], name: u32, place: u32)
    ensures { places.new ≡ slice_set places.old name place }
{
    if (name as usize) < places.len() {
        places[name as usize] = place;
    }
}

/// Gives the name of each use the place of the use, where the table has one for it.
pub(crate) fn place(uses: &[Use], places: &mut [u32])
    requires { length uses.now < 2 ^ 32 }
    ensures own { spec.AreOnce uses.now → (i : ℕ) (entry : Use) → slice_get uses.now i ≡ Some entry → entry.name < length places.old → slice_get places.new entry.name ≡ Some i }
    ensures rest { (x : ℕ) → (IsReachedBy x (map use_of uses.now) → ⊥) → slice_get places.new x ≡ slice_get places.old x }
    ensures size { length places.new ≡ length places.old }
{
    for i in 0..uses.len() {
        set_place(places, uses[i].name, i as u32);
    }
}
