//! A share with all that it keeps, which may be run beside others.
ghost use Rattle.std.specs.Prelude.{◌<◌, All};
ghost use Rattle.std.specs.Thread.{IsSync};
ghost use Rattle.share_window.specs.Owned.{IsLent, CanRunOver, HasRunOver, HaveRunOver};

use crate::window::{Ran, run_share};
use flat_model::Left;
use fork_steps::Slot;
use moment_body::ClockedModel;
use moment_steps::Piece;
use outside_io::Gate;
use share_run::ShareUses;
use std::alloc::Global;
use std::thread::{Threads, for_each_mut};
use sync_values::{List, Value};
use tree_step::{Cell, ClockNow, Entry};
use window_plan::PlannedMoment;

/// What a share keeps for all moments. It lends it to each window.
#[derive(Drop)]
pub struct KeptUses {
    /// For each class of the model the place of its base partition in the share. One of another share has a place behind all.
    pub classes: List<u32>,
    /// For each name of the model the place of the base partition whose equations reach it, where one of the share does.
    pub owners: List<Option<u32>>,
    /// The unclocked uses of the share, in their order.
    pub waiting: List<Entry>,
    /// What is told of no clock: that it ticks.
    pub always: List<ClockNow>,
    /// The numbers of all names, which are also the places of their cells.
    pub numbers: List<u32>,
    /// The places of the cells of the base partitions.
    pub places: List<u32>,
}

impl KeptUses {
    /// Lends what is kept.
    fn lend(&self) -> ShareUses<'_>
        ensures { IsLent self.now result }
    {
        ShareUses {
            classes: self.classes.as_slice(),
            owners: self.owners.as_slice(),
            waiting: self.waiting.as_slice(),
            always: self.always.as_slice(),
            numbers: self.numbers.as_slice(),
            places: self.places.as_slice(),
        }
    }
}

/// A share, with what it keeps between windows and room for one.
#[derive(Drop)]
pub struct Share {
    pub uses: KeptUses,
    /// The names whose values its rows show, in their order.
    pub own: List<u32>,
    /// The values at the moment before, and the last ones up to it.
    pub left: Left,
    /// Its base partitions.
    pub slots: Vec<Slot<Piece>>,
    /// A cell for each name of the model.
    pub cells: Vec<Cell>,
    /// The values of a moment by the numbers of names.
    pub now: Vec<Option<Value>>,
    /// For each moment of a window the values of its own names.
    pub rows: Vec<Vec<Option<Value>>>,
    /// How far it came in the window before.
    pub ran: Ran,
}

impl Share {
    /// Runs the share over the moments of a window. It starts no thread and takes no memory.
    fn run<R: Threads + Sync, G: Gate + Sync>(
        &mut self,
        rt: &R,
        gate: &G,
        alloc: Global,
        model: &ClockedModel,
        moments: &[PlannedMoment],
    )
        requires { CanRunOver self.old model.now moments.now }
        ensures { HasRunOver self.old model.entry.now moments.entry.now self.new }
    {
        let uses = self.uses.lend();
        let own = self.own.as_slice();
        let slots = self.slots.as_mut_slice();
        let cells = self.cells.as_mut_slice();
        let now = self.now.as_mut_slice();
        let rows = self.rows.as_mut_slice();
        let left = &mut self.left;
        self.ran = run_share(
            rt, gate, alloc, &uses, model, moments, own, left, slots, cells, now, rows,
        );
    }
}

/// Runs shares over the moments of a window, each by itself, in at most `workers` threads. A base partition passes the gate
/// once at each moment at which it is stepped. It takes no memory but that of threads.
///
/// Source: this project's own.
pub fn run_shares<R: Threads + Sync, G: Gate + Sync>(
    rt: &R,
    gate: &G,
    alloc: Global,
    workers: u32,
    model: &ClockedModel,
    moments: &[PlannedMoment],
    shares: &mut [Share],
)
    requires some { 0 < workers }
    requires can { All (λ share. CanRunOver share model.now moments.now) shares.old }
    ensures { HaveRunOver shares.old model.entry.now moments.entry.now shares.new }
{
    let run = |_place: usize, share: &mut Share|
        requires { IsSync R.row × IsSync G.row × CanRunOver share.now model.now moments.now }
        ensures { HasRunOver share.entry.now model.entry.now moments.entry.now share.exit.now }
    { share.run(rt, gate, alloc, model, moments) };
    for_each_mut(rt, shares, workers as usize, &run);
}
