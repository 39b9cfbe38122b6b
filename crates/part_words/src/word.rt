//! The word of one key.
ghost use Rattle.std.specs.Prelude.{◌≡◌, ◌*◌, slice_get, All, IfSome};
ghost use Rattle.rational_time.specs.Fraction.{IsFloor};
ghost use Rattle.sync_values.specs.Arithmetic.{fitted};
ghost use Rattle.flat_model.specs.Values.{value_in};
ghost use Rattle.flat_model.specs.Intervals.{IsMeasurable, length_of};
ghost use Rattle.flat_model.specs.Meaning.{whole_of};
ghost use Rattle.tree_step.specs.Cells.{cell_in};
ghost use Rattle.tree_step.specs.Frames.{shown_elapsed};
ghost use Rattle.tree_step.specs.Starts.{sight_of};
ghost use Rattle.part_words.specs.Words.{kept_word, value_word, ticking_in, times_of, first_word, whole_word, unfit_word, clock_word, key_word, IsMeasuredClock};

use cell_keys::{CellKey, word_of};
use flat_model::Elapsed;
use rational_time::{floor_between, floor_times};
use sync_values::{Fail, Value};
use tree_step::{Cell, ClockNow, Scene, cell_at};

/// The word of the last value that is kept of a name, 0 where it has no cell.
fn word_kept(places: &[u32], cells: &[Cell], name: u32) -> i64
    ensures { result ≡ kept_word (cell_in places.now cells.now name) }
{
    match cell_at(places, cells, name) {
        Some(cell) => word_of(cell.kept),
        None => 0,
    }
}

/// The word of a value that was left at the moment before, 0 where there is none.
fn word_left(values: &[Option<Value>], name: u32) -> i64
    ensures { result ≡ value_word (value_in values.now name) }
{
    match values.get(name as usize) {
        Some(Some(value)) => word_of(*value),
        Some(None) => 0,
        None => 0,
    }
}

/// The word of a last value that was left at the moment before, 0 where there is none.
fn word_last(values: &[Value], name: u32) -> i64
    ensures { result ≡ value_word (slice_get values.now name) }
{
    match values.get(name as usize) {
        Some(value) => word_of(*value),
        None => 0,
    }
}

/// The interval that is shown of a clock: that of a first tick is nothing.
fn elapsed(clock: ClockNow) -> Elapsed
    ensures { result ≡ shown_elapsed clock.first clock.interval }
{
    match clock.interval {
        Elapsed::Period(period) => Elapsed::Period(period),
        Elapsed::Between(from, to) => {
            if clock.first {
                Elapsed::Between(to, to)
            } else {
                Elapsed::Between(from, to)
            }
        }
    }
}

/// The whole part of an interval times k.
fn whole_times(interval: Elapsed, k: u32) -> u128
    requires { IsMeasurable interval }
    ensures { IsFloor ((length_of interval).num * k) (length_of interval).den result }
{
    match interval {
        Elapsed::Period(period) => floor_times(period, k),
        Elapsed::Between(from, to) => floor_between(from, to, k),
    }
}

/// The whole part of an interval times k as a word, where it fits.
#[tactic(auto, using(crate::proofs::Wholes::whole_is))]
fn interval_times(interval: Elapsed, k: u32) -> Result<i64, Fail>
    requires { IsMeasurable interval }
    ensures { result ≡ fitted (whole_of (length_of interval) k) }
{
    match i64::try_from(whole_times(interval, k)) {
        Ok(number) => Ok(number),
        Err(_) => Err(Fail::TooLarge),
    }
}

/// The word of the first tick: 1, or else 0.
fn word_first(clock: ClockNow) -> i64
    ensures { result ≡ first_word clock }
{
    i64::from(clock.first)
}

/// The word of an interval so many times, 0 where it does not fit.
fn word_whole(clock: ClockNow, times: u32) -> i64
    requires { IsMeasurable (shown_elapsed clock.first clock.interval) }
    ensures { result ≡ whole_word (times_of times clock) }
{
    interval_times(elapsed(clock), times).unwrap_or(0)
}

/// 1 where an interval so many times does not fit, else 0.
fn word_unfit(clock: ClockNow, times: u32) -> i64
    requires { IsMeasurable (shown_elapsed clock.first clock.interval) }
    ensures { result ≡ unfit_word (times_of times clock) }
{
    match interval_times(elapsed(clock), times) {
        Ok(_) => 0,
        Err(_) => 1,
    }
}

/// What is shown of the clock in a place, where it ticks.
fn ticking_at(clocks: &[ClockNow], place: u32) -> Option<ClockNow>
    requires { All IsMeasuredClock clocks.now }
    ensures told { result ≡ ticking_in (slice_get clocks.now place) }
    ensures measured { IfSome result (λ clock. IsMeasurable (shown_elapsed clock.first clock.interval)) }
{
    match clocks.get(place as usize) {
        Some(clock) => { if clock.ticks { Some(*clock) } else { None } }
        None => None,
    }
}

/// The word for the cell of a key.
pub(crate) fn word_for(scene: &Scene<'_>, cells: &[Cell], key: CellKey) -> i64
    requires { All IsMeasuredClock scene.now.clocks.now }
    ensures { result ≡ key_word (sight_of scene.now) cells.now key }
{
    match key {
        CellKey::Value(name) => word_kept(scene.places, cells, name),
        CellKey::Previous(name) => word_kept(scene.places, cells, name),
        CellKey::Left(name) => word_left(scene.left.now.as_slice(), name),
        CellKey::LeftLast(name) => word_last(scene.left.last.as_slice(), name),
        CellKey::Constant(word) => word,
        CellKey::First(place) => match ticking_at(scene.clocks, place) {
            Some(clock) => word_first(clock),
            None => 0,
        },
        CellKey::Interval(place, times) => match ticking_at(scene.clocks, place) {
            Some(clock) => word_whole(clock, times),
            None => 0,
        },
        CellKey::Unfit(place, times) => match ticking_at(scene.clocks, place) {
            Some(clock) => word_unfit(clock, times),
            None => 0,
        },
    }
}
