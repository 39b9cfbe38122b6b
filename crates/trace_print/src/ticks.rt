//! The text of the clocks of a model.
ghost use Rattle.std.specs.Prelude.{◌≡◌, ◌++◌, OnOk, IfOk, slice_get};
ghost use Rattle.trace_print.specs.Modes.{clock_in, ticks_text, clock_line, clock_lines, clocks_text};

use crate::put::{put, put_instant, put_number};
use flat_model::{Clock, Clocking, FlatModel};
use std::alloc::{AllocError, Global};
use sync_values::NoMemory;

/// The clock of a name by its number, if it has one.
fn clock_of(clocking: &Clocking, x: usize) -> Option<Clock>
    ensures { result ≡ clock_in clocking.now (slice_get clocking.now.of_name x) }
{
    match clocking.of_name.as_slice().get(x) {
        Some(Some(class)) => clocking.clocks.as_slice().get(*class as usize).copied(),
        _ => None,
    }
}

/// Adds when a name has its values.
fn put_ticks(out: &mut Vec<u8>, clock: Option<Clock>) -> Result<(), AllocError>
    ensures { OnOk result (out.new.items ≡ out.old.items ++ ticks_text clock) }
{
    match clock {
        None => put(out, b" unclocked"),
        Some(Clock::Periodic { period, start }) => {
            put(out, b" every ")?;
            put_instant(out, period)?;
            put(out, b" from ")?;
            put_instant(out, start)
        }
        Some(
            Clock::Event {
                site,
                factor,
                shift,
            },
        ) => {
            put(out, b" event ")?;
            put_number(out, u64::from(site) + 1)?;
            put(out, b" factor ")?;
            put_number(out, factor)?;
            put(out, b" shift ")?;
            put_number(out, shift)
        }
    }
}

fn put_clock_line(out: &mut Vec<u8>, name: &[u8], clock: Option<Clock>) -> Result<(), AllocError>
    ensures { OnOk result (out.new.items ≡ out.old.items ++ clock_line name.now clock) }
{
    put(out, name)?;
    put_ticks(out, clock)?;
    put(out, b"\n")
}

fn put_clock_lines(
    out: &mut Vec<u8>,
    flat: &FlatModel,
    clocking: &Clocking,
) -> Result<(), AllocError>
    ensures { OnOk result (out.new.items ≡ out.old.items ++ clocks_text flat.now clocking.now) }
{
    for (x, name) in flat.names.as_slice().iter().enumerate() {
        put_clock_line(out, name.text.as_bytes(), clock_of(clocking, x))?;
    }
    Ok(())
}

/// The clock of each name: `NAME unclocked`, `NAME every P from S` with the period and the start in seconds, or
/// `NAME event SITE factor F shift G`, where tick k is at the rising number `F * k + G` of the site. Sites are printed
/// from 1.
///
/// # Errors
///
/// Where memory does not suffice.
pub fn clocks_text(
    alloc: Global,
    flat: &FlatModel,
    clocking: &Clocking,
) -> Result<Vec<u8>, NoMemory>
    ensures { IfOk result (λ bytes. bytes.items ≡ clocks_text flat.now clocking.now) }
{
    let mut out = Vec::new(alloc);
    put_clock_lines(&mut out, flat, clocking)?;
    Ok(out)
}
