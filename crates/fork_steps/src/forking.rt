//! Slots side by side.
ghost use Rattle.std.specs.Prelude.{◌<◌};
ghost use Rattle.std.specs.Thread.{IsSync, IsSend};
ghost use Rattle.fork_steps.specs.Stepping.{AreReady, AreStepped};

use crate::slot::{Slot, Step};
use crate::turns::{count_marked, place_behind, step_in_turn};
use outside_io::Gate;
use std::thread::{Threads, join_mut};

/// Steps the pieces of the slots that count. They are divided into as many parts of nearly one size as there are workers,
/// but no more than count, and each part is stepped in a thread of its own.
#[cycle(halves)]
fn step_among<R: Threads + Sync, G: Gate + Sync, S: Sync, T: Step<S> + Send>(
    rt: &R,
    gate: &G,
    scene: &S,
    workers: usize,
    slots: &mut [Slot<T>],
)
    requires { AreReady (λ piece. T.can_step piece scene.now) slots.old }
    ensures { AreStepped (λ old new. T.steps old scene.entry.now new) slots.old slots.new }
{
    let marked = count_marked(slots);
    let parts = workers.min(marked);
    if parts < 2 {
        step_in_turn(gate, scene, slots);
        return;
    }
    let low = parts / 2;
    let place = place_behind(slots, marked.saturating_mul(low) / parts);
    let (front, back) = slots.split_at_mut(place);
    step_both(rt, gate, scene, low, front, parts - low, back);
}

/// Steps the pieces of two parts side by side. It is a function of its own so that the closures ask for what it is given.
#[cycle(halves)]
fn step_both<R: Threads + Sync, G: Gate + Sync, S: Sync, T: Step<S> + Send>(
    rt: &R,
    gate: &G,
    scene: &S,
    low: usize,
    front: &mut [Slot<T>],
    high: usize,
    back: &mut [Slot<T>],
)
    requires some { (0 < low) × (0 < high) }
    requires front { AreReady (λ piece. T.can_step piece scene.now) front.old }
    requires back { AreReady (λ piece. T.can_step piece scene.now) back.old }
    ensures front { AreStepped (λ old new. T.steps old scene.entry.now new) front.old front.new }
    ensures back { AreStepped (λ old new. T.steps old scene.entry.now new) back.old back.new }
{
    let mut one = ||
        requires { IsSync R.row × IsSync G.row × IsSync S.row × IsSend T.row × AreReady (λ piece. T.can_step piece scene.now) front.now }
        ensures { AreStepped (λ old new. T.steps old scene.entry.now new) front.entry.now front.exit.now }
    { step_among(rt, gate, scene, low, front) };
    let mut two = ||
        requires { IsSync R.row × IsSync G.row × IsSync S.row × IsSend T.row × AreReady (λ piece. T.can_step piece scene.now) back.now }
        ensures { AreStepped (λ old new. T.steps old scene.entry.now new) back.entry.now back.exit.now }
    { step_among(rt, gate, scene, high, back) };
    join_mut(rt, &mut one, &mut two);
}

/// Steps the pieces of the slots that count at a moment, each once, in at most `workers` threads. A piece passes the gate
/// once, as it starts. Where there is one worker, or at most one piece counts, no thread is started. It takes no memory but
/// that of threads.
///
/// Source: this project's own.
pub fn step_slots<R: Threads + Sync, G: Gate + Sync, S: Sync, T: Step<S> + Send>(
    rt: &R,
    gate: &G,
    workers: u32,
    scene: &S,
    slots: &mut [Slot<T>],
)
    requires { AreReady (λ piece. T.can_step piece scene.now) slots.old }
    ensures { AreStepped (λ old new. T.steps old scene.entry.now new) slots.old slots.new }
{
    step_among(rt, gate, scene, workers as usize, slots);
}
