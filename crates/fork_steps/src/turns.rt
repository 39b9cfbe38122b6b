//! Slots one after the other.
ghost use Rattle.std.specs.Prelude.{◌≡◌, ◌≤◌, length, count_by};
ghost use Rattle.fork_steps.specs.Stepping.{IsReady, AreReady, IsStepped, AreStepped};

use crate::slot::{Slot, Step};
use outside_io::Gate;

/// Steps the piece of a slot that counts. It passes the gate once, as it starts.
fn step_slot<G: Gate, S, T: Step<S>>(gate: &G, scene: &S, slot: &mut Slot<T>)
    requires { IsReady (λ piece. T.can_step piece scene.now) slot.old }
    ensures { IsStepped (λ old new. T.steps old scene.entry.now new) slot.old slot.new }
{
    if !slot.counts {
        return;
    }
    gate.pass(slot.number);
    slot.piece.step(scene);
}

/// Steps the pieces of the slots that count, one after the other.
pub(crate) fn step_in_turn<G: Gate, S, T: Step<S>>(gate: &G, scene: &S, slots: &mut [Slot<T>])
    requires { AreReady (λ piece. T.can_step piece scene.now) slots.old }
    ensures { AreStepped (λ old new. T.steps old scene.entry.now new) slots.old slots.new }
{
    for place in 0..slots.len() {
        step_slot(gate, scene, &mut slots[place]);
    }
}

/// How many slots count.
pub(crate) fn count_marked<T>(slots: &[Slot<T>]) -> usize
    ensures { result ≡ count_by (λ slot. slot.counts) slots.now }
{
    let mut marked = 0;
    for slot in slots {
        if slot.counts {
            marked += 1;
        }
    }
    marked
}

/// The first place behind so many slots that count, or behind all.
pub(crate) fn place_behind<T>(slots: &[Slot<T>], marked: usize) -> usize
    ensures { result ≤ length slots.now }
{
    let mut left = marked;
    for place in 0..slots.len() {
        if left == 0 {
            return place;
        }
        if slots[place].counts {
            left -= 1;
        }
    }
    slots.len()
}
