ghost use Rattle.std.specs.Prelude.{◌≡◌, ℕ, ◌<◌, ◌^◌, length, map, slice_get, None, IfOk};
ghost use Rattle.moment_theory.specs.Free.{IsReachedBy};
ghost use Rattle.eq_order.specs.Order.{use_of};
ghost use Rattle.tree_step.specs.Cells.{cell_in};
ghost use Rattle.tree_step.specs.Frames.{now_in};
ghost use Rattle.partition_step.specs.Prepared.{IsPrepared};

use crate::laying::{cells_of, lay, place};
use crate::part::Part;
use eq_order::Use;
use flat_model::{Clocking, Elapsed, FlatModel};
use part_code::prepare_code;
use rational_time::make;
use std::alloc::{AllocError, Global};
use tree_step::ClockNow;

impl Part {
    /// The part of the uses of one base partition, given in their order, before the first moment. The places of the names
    /// that they reach are written, and no others: one table serves all parts of a model. Its cost is that of its uses. The
    /// part steps by prepared code, unless cells or instructions have no numbers of 32 bits.
    ///
    /// # Errors
    ///
    /// Want of memory. The places may be written then.
    ///
    /// Source: this project's own.
    pub fn prepare(
        alloc: Global,
        flat: &FlatModel,
        clocking: &Clocking,
        uses: &[Use],
        places: &mut [u32],
    ) -> Result<Part, AllocError>
        requires few { length uses.now < 2 ^ 32 }
        ensures prepared { IfOk result (IsPrepared flat.now clocking.now uses.now places.old places.new) }
        ensures fresh { IfOk result (λ part. (x : ℕ) → now_in (cell_in places.new part.cells.items x) ≡ None) }
        ensures rest { (x : ℕ) → (IsReachedBy x (map use_of uses.now) → ⊥) → slice_get places.new x ≡ slice_get places.old x }
        ensures size { length places.new ≡ length places.old }
    {
        let laid = lay(alloc, clocking, uses)?;
        let cells = cells_of(alloc, flat.names.as_slice(), uses)?;
        let clock = ClockNow {
            ticks: false,
            first: true,
            interval: Elapsed::Period(make(0, 1)),
        };
        let clocks = Vec::from_elem(alloc, clock, laid.classes.len())?;
        let code = prepare_code(alloc, flat, laid.entries.as_slice())?;
        place(uses, places);
        Ok(Part {
            entries: laid.entries,
            cells,
            classes: laid.classes,
            clocks,
            code,
        })
    }
}
