//! A share over the moments of a window.
ghost use Rattle.std.specs.Prelude.{◌≡◌, ◌≤◌, length};
ghost use Rattle.partition_step.specs.Writing.{IsWritten};
ghost use Rattle.share_run.specs.Standing.{holding_of};
ghost use Rattle.share_window.specs.Windows.{CanRunShare, RunsShare, AreAsWide};
ghost use Rattle.share_window.specs.private.Owning.{own_by};

use first_failure::EquationFailing;
use flat_model::Left;
use fork_steps::Slot;
use moment_body::ClockedModel;
use moment_steps::Piece;
use outside_io::Gate;
use share_run::{ShareUses, step_moment};
use std::alloc::Global;
use std::thread::Threads;
use sync_values::Value;
use tree_step::Cell;
use window_plan::PlannedMoment;

/// How many moments of a window a share ran at which nothing of it failed, and the failure at the one behind them, where one
/// came.
#[derive(Clone, Copy, Drop)]
pub struct Ran {
    pub done: usize,
    pub told: Option<EquationFailing>,
}

/// The value of the name in a place of a list of own names, or the one that is there.
fn own_value(own: &[u32], now: &[Option<Value>], at: usize, there: Option<Value>) -> Option<Value>
    ensures { result ≡ own_by own.now now.now at there }
{
    match own.get(at) {
        Some(name) => match now.get(*name as usize) {
            Some(value) => *value,
            None => None,
        },
        None => there,
    }
}

/// Copies the values of a share's own names.
fn copy_own(own: &[u32], now: &[Option<Value>], row: &mut [Option<Value>])
    ensures { IsWritten (own_by own.now now.now) row.old row.new }
{
    for at in 0..row.len() {
        row[at] = own_value(own, now, at, row[at]);
    }
}

/// Runs a share over the moments of a window, one behind the other, and keeps the values of its own names of each in the row
/// of its place. It stops behind the first moment at which one of its equations fails. It starts no thread and takes no memory.
///
/// Source: this project's own.
pub fn run_share<R: Threads + Sync, G: Gate + Sync>(
    rt: &R,
    gate: &G,
    alloc: Global,
    uses: &ShareUses<'_>,
    model: &ClockedModel,
    moments: &[PlannedMoment],
    own: &[u32],
    left: &mut Left,
    slots: &mut [Slot<Piece>],
    cells: &mut [Cell],
    now: &mut [Option<Value>],
    rows: &mut [Vec<Option<Value>>],
) -> Ran
    requires room { length moments.now ≤ length rows.old }
    requires can { CanRunShare (holding_of uses.now slots.old cells.old left.old) model.now moments.now now.old }
    ensures wide { length now.new ≡ length now.old }
    ensures rows { length rows.new ≡ length rows.old }
    ensures columns { AreAsWide rows.old rows.new }
    ensures runs { RunsShare (holding_of uses.entry.now slots.old cells.old left.old) (holding_of uses.entry.now slots.new cells.new left.new) model.entry.now moments.entry.now now.old own.entry.now rows.new result.done result.told }
{
    for done in 0..moments.len() {
        let told = step_moment(
            rt,
            gate,
            alloc,
            uses,
            model,
            &moments[done],
            left,
            slots,
            cells,
            now,
        );
        if told.is_some() {
            return Ran { done, told };
        }
        copy_own(own, now, rows[done].as_mut_slice());
    }
    Ran {
        done: moments.len(),
        told: None,
    }
}
