//! The base partitions of a moment, side by side.
ghost use Rattle.std.specs.Prelude.{◌≡◌, ℕ, Some, slice_get};
ghost use Rattle.fork_steps.specs.declared.slot.Slot.{Slot};
ghost use Rattle.partition_step.specs.Steps.{CanStep};
ghost use Rattle.moment_steps.specs.declared.piece.Piece.{Piece};
ghost use Rattle.moment_steps.specs.Stepped.{AreSteppedAt};
ghost use Rattle.moment_steps.specs.Ticked.{row_ticks};

use crate::marking::mark;
use crate::piece::{Piece, Scene};
use fork_steps::{Slot, step_slots};
use outside_io::Gate;
use std::thread::Threads;

/// Steps the base partitions of which a class ticks, in at most `workers` threads.
pub fn step_parts<R: Threads + Sync, G: Gate + Sync>(
    rt: &R,
    gate: &G,
    workers: u32,
    partitions: &[u32],
    scene: &Scene<'_, '_, '_>,
    slots: &mut [Slot<Piece>],
)
    requires { (i : ℕ) (slot : Slot Piece) → slice_get slots.old i ≡ Some slot → CanStep (record { equations = scene.now.flat.now.equations; places = scene.now.places.now; moment = scene.now.at; ticks = row_ticks scene.now.ticks.now; answers = scene.now.answers.now; left = scene.now.left.now }) slot.piece.part }
    ensures { AreSteppedAt (record { equations = scene.entry.now.flat.now.equations; places = scene.entry.now.places.now; moment = scene.entry.now.at; ticks = row_ticks scene.entry.now.ticks.now; answers = scene.entry.now.answers.now; left = scene.entry.now.left.now }) partitions.now slots.old slots.new }
{
    mark(partitions, scene.ticks, slots);
    step_slots(rt, gate, workers, scene, slots);
}
