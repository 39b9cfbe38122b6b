//! One moment of a share.
ghost use Rattle.std.specs.Prelude.{◌≡◌, length};
ghost use Rattle.moment_steps.specs.Opening.{value_by};
ghost use Rattle.partition_step.specs.Writing.{IsWritten};
ghost use Rattle.share_run.specs.Standing.{holding_of};
ghost use Rattle.share_run.specs.Taking.{plan_of, CanTakeShare, TakesShare, KeepsShare, GoesOnShare};
ghost use Rattle.tree_step.specs.Starts.{CanStart};
ghost use Rattle.tree_step.specs.Takes.{TakesUses};

use crate::gathering::gather;
use crate::share::ShareUses;
use first_failure::EquationFailing;
use flat_model::{FlatModel, Left};
use fork_steps::Slot;
use moment_body::ClockedModel;
use moment_steps::{
    Piece, Scene, copy_values, earlier, keep_left, least_told, open_ticking, step_parts,
};
use outside_io::Gate;
use std::alloc::Global;
use std::thread::Threads;
use sync_values::Value;
use tree_step::{Cell, take_uses};
use window_plan::PlannedMoment;

/// Takes the unclocked uses of a share over open cells, and copies the values.
fn take_opened(
    uses: &ShareUses<'_>,
    flat: &FlatModel,
    left: &Left,
    cells: &mut [Cell],
    now: &mut [Option<Value>],
) -> Option<EquationFailing>
    requires { CanStart (record { equations = flat.now.equations; places = uses.now.numbers.now; left = left.now; clocks = uses.now.always.now }) uses.now.waiting.now cells.old }
    ensures takes { TakesUses (record { equations = flat.now.equations; places = uses.entry.now.numbers.now; left = left.entry.now; clocks = uses.entry.now.always.now }) uses.entry.now.waiting.now cells.old cells.new result }
    ensures size { length cells.new ≡ length cells.old }
    ensures values { IsWritten (value_by cells.new) now.old now.new }
{
    let scene = tree_step::Scene {
        flat,
        places: uses.numbers,
        left,
        clocks: uses.always,
    };
    let told = take_uses(&scene, uses.waiting, cells);
    copy_values(cells, now);
    told
}

/// Takes the uses of a share at a moment that was planned, over the values that rest on no clock: those of each of its base
/// partitions of which a class ticks, one after the other, and then those that wait for a clock. A base partition passes the
/// gate once, as it starts. The answer is the failing equation of the least number. It starts no thread and takes no memory.
///
/// Source: MLS 3.6, chapter 16, "Clocked Equations", and for the division into shares this project's own.
fn take_moment<R: Threads + Sync, G: Gate + Sync>(
    rt: &R,
    gate: &G,
    uses: &ShareUses<'_>,
    model: &ClockedModel,
    moment: &PlannedMoment,
    left: &Left,
    slots: &mut [Slot<Piece>],
    cells: &mut [Cell],
    now: &mut [Option<Value>],
) -> Option<EquationFailing>
    requires { CanTakeShare (holding_of uses.now slots.old cells.old left.now) model.now (plan_of moment.now) now.old }
    ensures room { length cells.new ≡ length cells.old }
    ensures wide { length now.new ≡ length now.old }
    ensures takes { TakesShare (holding_of uses.entry.now slots.old cells.old left.entry.now) model.entry.now (plan_of moment.entry.now) slots.new now.old now.new result }
{
    let scene = Scene {
        flat: &model.flat,
        places: uses.places,
        at: moment.at,
        ticks: &moment.ticks,
        answers: &moment.answers,
        left,
    };
    step_parts(rt, gate, 1, uses.classes, &scene, slots);
    gather(uses.owners, uses.numbers, uses.places, slots, now);
    let told = least_told(slots);
    open_ticking(
        &model.clocking,
        &moment.ticks,
        &moment.answers,
        uses.numbers,
        left.last.as_slice(),
        now,
        cells,
    );
    let behind = take_opened(uses, &model.flat, left, cells, now);
    earlier(behind, told)
}

/// Takes the uses of a share at a moment, over the values of the moment that rest on no clock, and keeps what they gave for the
/// next one, where no equation failed. The answer is the failing equation of the least number. It starts no thread and takes
/// no memory.
///
/// Source: MLS 3.6, chapter 16, "Clocked Equations", and for the division into shares this project's own.
pub fn step_moment<R: Threads + Sync, G: Gate + Sync>(
    rt: &R,
    gate: &G,
    alloc: Global,
    uses: &ShareUses<'_>,
    model: &ClockedModel,
    moment: &PlannedMoment,
    left: &mut Left,
    slots: &mut [Slot<Piece>],
    cells: &mut [Cell],
    now: &mut [Option<Value>],
) -> Option<EquationFailing>
    requires wide { length now.old ≡ length moment.now.base.items }
    requires can { CanTakeShare (holding_of uses.now slots.old cells.old left.old) model.now (plan_of moment.now) moment.now.base.items }
    ensures wide { length now.new ≡ length now.old }
    ensures takes { TakesShare (holding_of uses.entry.now slots.old cells.old left.old) model.entry.now (plan_of moment.entry.now) slots.new moment.entry.now.base.items now.new result }
    ensures goes { GoesOnShare (holding_of uses.entry.now slots.old cells.old left.old) model.entry.now (plan_of moment.entry.now) moment.entry.now.base.items now.new result }
    ensures keeps { KeepsShare (holding_of uses.entry.now slots.old cells.old left.old) (holding_of uses.entry.now slots.new cells.new left.new) model.entry.now (plan_of moment.entry.now) moment.entry.now.base.items now.new result }
{
    now.copy_from_slice(&moment.base);
    let told = take_moment(rt, gate, uses, model, moment, left, slots, cells, now);
    if told.is_none() {
        keep_left(alloc, now, left);
    }
    told
}
