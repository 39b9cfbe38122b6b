ghost use Rattle.std.specs.Prelude.{◌≡◌, IfErr, IfOk};
ghost use Rattle.flat_model.specs.Models.{IsModel};
ghost use Rattle.command_words.specs.declared.command.Mode.TheVariants.{Flat, Clocks};
ghost use Rattle.command_stages.specs.declared.end.End.TheVariants.{NoMemory};
ghost use Rattle.command_stages.specs.Ends.{IsPrintable};
ghost use Rattle.command_stages.specs.Segments.{HaltsIn, PrintsIn};

use crate::clocking::clocking_of;
use crate::end::End;
use flat_model::FlatModel;
use std::alloc::Global;
use trace_print::{clocks_text, flat_text};

/// What mode `flat` prints: the names and the equations of a model.
///
/// # Errors
///
/// Want of memory alone.
///
/// Source: this project's own.
#[tactic(auto, using(crate::proofs::Printing::flat_prints))]
pub fn print_flat(alloc: Global, flat: &FlatModel) -> Result<Vec<u8>, End<'static>>
    ensures printed { IfOk result (λ text. PrintsIn Flat flat.now text.items) }
    ensures ended { IfErr result (λ end. end ≡ NoMemory) }
{
    Ok(flat_text(alloc, flat)?)
}

/// What mode `clocks` prints: when each name has its values.
///
/// # Errors
///
/// The first rule of clocks that the model breaks, as `clocking_of` has it, or want of memory.
///
/// Source: this project's own.
#[tactic(auto, using(crate::proofs::Printing::clocks_print, crate::proofs::Printing::clocks_halt))]
pub fn print_clocks(alloc: Global, flat: &FlatModel) -> Result<Vec<u8>, End<'static>>
    requires { IsModel flat.now }
    ensures printed { IfOk result (λ text. PrintsIn Clocks flat.now text.items) }
    ensures ended { IfErr result (HaltsIn Clocks flat.now) }
    ensures short { IfErr result IsPrintable }
{
    let clocking = clocking_of(alloc, flat)?;
    Ok(clocks_text(alloc, flat, &clocking)?)
}
