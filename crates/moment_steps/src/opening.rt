//! The cells of all names, before unclocked uses are taken.
ghost use Rattle.std.specs.Prelude.{◌≡◌, ◌<◌, ◌^◌, length};
ghost use Rattle.tree_step.specs.declared.cell.Standing.TheVariants.{Ticks};
ghost use Rattle.moment_steps.specs.Ticked.{row_ticks};
ghost use Rattle.moment_steps.specs.Opening as spec;
ghost use Rattle.partition_step.specs.Writing.{IsWritten};

use crate::ticks::ticks_at;
use flat_model::{Clock, Clocking};
use sync_values::Value;
use tree_step::{Cell, Standing};

/// A cell with the value of the name of this number.
fn opened(
    numbers: &[u32],
    last: &[Value],
    now: &[Option<Value>],
    at: usize,
    standing: Standing,
    old: Cell,
) -> Cell
    ensures { result ≡ spec.opened numbers.now last.now now.now standing at old }
{
    Cell {
        name: numbers.get(at).copied().unwrap_or(old.name),
        kept: last.get(at).copied().unwrap_or(old.kept),
        standing,
        now: match now.get(at) {
            Some(value) => *value,
            None => None,
        },
    }
}

/// Opens the cells where no last values are read.
pub(crate) fn open_plain(numbers: &[u32], last: &[Value], now: &[Option<Value>], cells: &mut [Cell])
    ensures { IsWritten (spec.opened_by numbers.now last.now now.now (λ x. Ticks)) cells.old cells.new }
{
    for at in 0..cells.len() {
        cells[at] = opened(numbers, last, now, at, Standing::Ticks, cells[at]);
    }
}

/// How a clock stands that does not tick: an event clock is known to rest where its site's condition has a value.
fn resting(clock: Option<Clock>, answers: &[Option<bool>]) -> Standing
    ensures { result ≡ spec.resting answers.now clock }
{
    match clock {
        Some(Clock::Event { site, .. }) => match answers.get(site as usize) {
            Some(Some(_)) => Standing::Rests,
            Some(None) => Standing::Unknown,
            None => Standing::Unknown,
        },
        Some(Clock::Periodic { .. }) => Standing::Rests,
        None => Standing::Rests,
    }
}

/// How the clock of a name stands.
fn standing(clocking: &Clocking, ticks: &[bool], answers: &[Option<bool>], at: usize) -> Standing
    ensures { result ≡ spec.standing clocking.now (row_ticks ticks.now) answers.now at }
{
    match clocking.of_name.as_slice().get(at) {
        Some(Some(class)) => {
            if ticks_at(ticks, *class as usize) {
                return Standing::Ticks;
            }
            resting(
                clocking.clocks.as_slice().get(*class as usize).copied(),
                answers,
            )
        }
        Some(None) => Standing::Ticks,
        None => Standing::Ticks,
    }
}

/// A cell with how the clock of its name stands.
fn opened_ticking(
    clocking: &Clocking,
    ticks: &[bool],
    answers: &[Option<bool>],
    numbers: &[u32],
    last: &[Value],
    now: &[Option<Value>],
    at: usize,
    old: Cell,
) -> Cell
    ensures { result ≡ spec.opened_by numbers.now last.now now.now (spec.standing clocking.now (row_ticks ticks.now) answers.now) at old }
{
    let standing = standing(clocking, ticks, answers, at);
    opened(numbers, last, now, at, standing, old)
}

/// Opens the cells with how the clocks of their names stand.
pub fn open_ticking(
    clocking: &Clocking,
    ticks: &[bool],
    answers: &[Option<bool>],
    numbers: &[u32],
    last: &[Value],
    now: &[Option<Value>],
    cells: &mut [Cell],
)
    ensures { IsWritten (spec.opened_by numbers.now last.now now.now (spec.standing clocking.now (row_ticks ticks.now) answers.now)) cells.old cells.new }
{
    for at in 0..cells.len() {
        cells[at] = opened_ticking(clocking, ticks, answers, numbers, last, now, at, cells[at]);
    }
}
