//! The stretches of code, one for each run of entries of one clock.
ghost use Rattle.std.specs.Prelude.{◌≡◌, ℕ, ◌<◌, ◌≤◌, Some, length, slice_get, IfOk, IfErr, All};
ghost use Rattle.tree_step.specs.declared.taking.Entry.{Entry};
ghost use Rattle.part_stretches.specs.Running.{IsRunWithin};
ghost use Rattle.part_code.specs.private.Stretching.{AreCodedTo, IsEnd, clock_in};
ghost use Rattle.part_code.specs.private.Refused.{IsDueTo, IsRefusedRun};

use cell_keys::{CellKeys, Sight};
use flat_model::FlatName;
use keyed_code::{KeyTable, prepare_stretch};
use part_stretches::ClassStretch;
use std::alloc::Global;
use step_code::NoCode;
use step_lines::{Line, cells_of};
use tree_step::Entry;

/// The clock of the entry in a place.
fn clock_at(entries: &[Entry], place: usize) -> u32
    ensures { result ≡ clock_in (slice_get entries.now place) }
{
    match entries.get(place) {
        Some(entry) => entry.clock,
        None => 0,
    }
}

/// The first place behind this one whose entry is of another clock, or the end.
fn end_of(entries: &[Entry], start: usize) -> usize
    requires { start < length entries.now }
    ensures { IsEnd entries.now start result }
{
    let clock = entries[start].clock;
    let mut end = start + 1;
    while end < entries.len() && entries[end].clock == clock {
        end += 1;
    }
    end
}

/// The stretches of entries whose lines these are.
pub(crate) fn stretches_for(
    alloc: Global,
    names: &[FlatName],
    keys: &CellKeys,
    entries: &[Entry],
    lines: &[Line<'_>],
) -> Result<Vec<ClassStretch>, NoCode>
    requires { length lines.now ≡ length entries.now }
    ensures stretches { IfOk result (λ stretches. AreCodedTo names.now keys.now entries.now lines.now (length entries.now) stretches.items) }
    ensures refused { IfErr result (IsDueTo (IsRefusedRun names.now keys.now entries.now lines.now)) }
{
    let mut stretches = Vec::new(alloc);
    let mut start = 0;
    while start < entries.len() {
        let end = end_of(entries, start);
        let clock = clock_at(entries, start);
        let table = KeyTable {
            keys,
            names,
            clock,
            sight: Sight::Now,
        };
        let stretch = prepare_stretch(alloc, &table, &lines[start..end], keys.len())?;
        let one = ClassStretch {
            class: clock,
            stretch,
        };
        stretches.push(one).map_err(|_| NoCode::Memory)?;
        start = end;
    }
    Ok(stretches)
}

fn larger(a: usize, b: usize) -> usize
    ensures first { a ≤ result }
    ensures second { b ≤ result }
{
    if a < b { b } else { a }
}

/// How many words the stretches need, at least so many.
pub(crate) fn room_for(least: usize, stretches: &[ClassStretch]) -> usize
    ensures least { least ≤ result }
    ensures within { All (IsRunWithin result) stretches.now }
{
    let mut count = least;
    for one in stretches {
        count = larger(count, cells_of(&one.stretch.code));
    }
    count
}
