//! What is shown of classes at a moment, and cells without values.
ghost use Rattle.std.specs.Prelude.{◌≡◌, false, length, slice_get};
ghost use Rattle.partition_step.specs.private.Stepping as spec;
ghost use Rattle.partition_step.specs.Writing.{IsWritten};

use crate::part::ClassKept;
use flat_model::{Clock, Elapsed, Moment};
use rational_time::Ratio;
use tick_plan::Ticking;
use tree_step::{Cell, ClockNow, Entry, Standing};

/// The interval of a clock at a moment: its period, or the time since its last tick. At Initial nothing ticks.
fn elapsed(clock: Clock, ticked: Option<Ratio>, moment: Moment, other: Elapsed) -> Elapsed
    ensures { result ≡ spec.elapsed_at clock ticked moment other }
{
    match clock {
        Clock::Periodic { period, .. } => Elapsed::Period(period),
        Clock::Event { .. } => match moment {
            Moment::At(at) => Elapsed::Between(ticked.unwrap_or(at), at),
            Moment::Initial => other,
        },
    }
}

/// Tells of each class whether it ticks, whether for the first time, and its interval.
pub(crate) fn show<T: Ticking>(
    classes: &[ClassKept],
    moment: Moment,
    ticks: &T,
    clocks: &mut [ClockNow],
)
    requires { length clocks.old ≡ length classes.now }
    ensures { IsWritten (spec.shown_at (T.ticks ticks.now) moment classes.now) clocks.old clocks.new }
{
    for j in 0..clocks.len() {
        let kept = classes[j];
        clocks[j] = ClockNow {
            ticks: ticks.ticking(kept.class),
            first: kept.ticked.is_none(),
            interval: elapsed(kept.clock, kept.ticked, moment, clocks[j].interval),
        };
    }
}

/// Whether a clock rests that does not tick: it is so known of an event clock where its site's condition has a value.
fn resting(clock: Clock, answers: &[Option<bool>]) -> Standing
    ensures { result ≡ spec.standing_of answers.now false clock }
{
    match clock {
        Clock::Periodic { .. } => Standing::Rests,
        Clock::Event { site, .. } => match answers.get(site as usize) {
            Some(Some(_)) => Standing::Rests,
            Some(None) => Standing::Unknown,
            None => Standing::Unknown,
        },
    }
}

fn standing(
    classes: &[ClassKept],
    clocks: &[ClockNow],
    answers: &[Option<bool>],
    place: u32,
) -> Standing
    ensures { result ≡ spec.standing_in answers.now (slice_get classes.now place) (slice_get clocks.now place) }
{
    match classes.get(place as usize) {
        Some(kept) => match clocks.get(place as usize) {
            Some(clock) => {
                if clock.ticks {
                    return Standing::Ticks;
                }
                resting(kept.clock, answers)
            }
            None => Standing::Unknown,
        },
        None => Standing::Unknown,
    }
}

/// Takes the value out of each cell, and tells how the clock of its name stands.
pub(crate) fn begin(
    entries: &[Entry],
    classes: &[ClassKept],
    clocks: &[ClockNow],
    answers: &[Option<bool>],
    cells: &mut [Cell],
)
    requires { length cells.old ≡ length entries.now }
    ensures { IsWritten (spec.begun_at answers.now classes.now clocks.now entries.now) cells.old cells.new }
{
    for i in 0..cells.len() {
        let cell = cells[i];
        cells[i] = Cell {
            name: cell.name,
            kept: cell.kept,
            standing: standing(classes, clocks, answers, entries[i].clock),
            now: None,
        };
    }
}
