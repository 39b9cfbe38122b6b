//! What is kept once a part was stepped.
ghost use Rattle.std.specs.Prelude.{◌≡◌, length};
ghost use Rattle.flat_model.specs.declared.clock.Moment.TheVariants.{At};
ghost use Rattle.partition_step.specs.private.Stepping as spec;
ghost use Rattle.partition_step.specs.Writing.{IsWritten};

use crate::part::ClassKept;
use flat_model::Moment;
use rational_time::Ratio;
use tree_step::{Cell, ClockNow};

/// Keeps the value of each name that has one.
pub(crate) fn keep(cells: &mut [Cell])
    ensures { IsWritten spec.kept_cell cells.old cells.new }
{
    for i in 0..cells.len() {
        let cell = cells[i];
        cells[i] = Cell {
            name: cell.name,
            kept: cell.now.unwrap_or(cell.kept),
            standing: cell.standing,
            now: cell.now,
        };
    }
}

fn ticked(ticks: bool, at: Ratio, kept: ClassKept) -> ClassKept
    ensures { result ≡ spec.ticked_class ticks at kept }
{
    if ticks {
        return ClassKept {
            class: kept.class,
            clock: kept.clock,
            ticked: Some(at),
        };
    }
    kept
}

fn note_at(at: Ratio, clocks: &[ClockNow], classes: &mut [ClassKept])
    requires { length clocks.now ≡ length classes.old }
    ensures { IsWritten (spec.ticked_at (At at) clocks.now) classes.old classes.new }
{
    for j in 0..classes.len() {
        classes[j] = ticked(clocks[j].ticks, at, classes[j]);
    }
}

/// Notes the instant at which classes tick.
pub(crate) fn note(moment: Moment, clocks: &[ClockNow], classes: &mut [ClassKept])
    requires { length clocks.now ≡ length classes.old }
    ensures { IsWritten (spec.ticked_at moment clocks.now) classes.old classes.new }
{
    match moment {
        Moment::At(at) => note_at(at, clocks, classes),
        Moment::Initial => {}
    }
}
