ghost use Rattle.std.specs.Prelude.{◌≡◌, ◌<◌, All, IfErr, IfOk, length};
ghost use Rattle.flat_model.specs.declared.place.Place.TheVariants.{Equation};
ghost use Rattle.flat_model.specs.Models.{IsModel};
ghost use Rattle.flat_model.specs.Runnable.{AreClocks};
ghost use Rattle.trace_print.specs.Refusals.{IsShort};
ghost use Rattle.command_answer.specs.Actions.{clocking_of};
ghost use Rattle.command_answer.specs.Told.{at_class, told_clocks, told_checks};
ghost use Rattle.command_stages.specs.declared.end.End.TheVariants.{Refused};
ghost use Rattle.command_stages.specs.Ends.{Halts, IsPrintable, IsToldBy};
ghost use Rattle.command_stages.specs.private.Placed.{HasPlace, HasPlaceIn};

use crate::end::End;
use crate::place::copied;
use base_partition::classes;
use clock_check::{CheckEnd, check};
use clock_terms::{Classes, terms};
use flat_model::{Clocking, FlatModel, Place};
use std::alloc::Global;
use sub_clock_solve::{SolveEnd, solve};
use trace_print::Code;

/// A rule that a class breaks, at the place of the class.
fn at_class(alloc: Global, code: Code, classes: &Classes, class: u32) -> End<'static>
    requires within { class < length classes.now.places }
    requires short { All IsShort classes.now.places }
    ensures told { IsToldBy (at_class code classes.now class) result }
    ensures short { IsPrintable result }
{
    match copied(alloc, &classes.places.as_slice()[class as usize]) {
        Ok(place) => End::Refused { code, place },
        Err(_) => End::NoMemory,
    }
}

fn at_equation(code: Code, equation: u32) -> End<'static>
    ensures { result ≡ Refused code (Equation equation) }
{
    End::Refused {
        code,
        place: Place::Equation(equation),
    }
}

/// Why the classes have no clocks.
fn no_clocks(alloc: Global, classes: &Classes, end: SolveEnd) -> End<'static>
    requires within { HasPlace classes.now end }
    requires short { All IsShort classes.now.places }
    ensures told { IsToldBy (told_clocks classes.now end) result }
    ensures short { IsPrintable result }
{
    match end {
        SolveEnd::Unknown { class } => at_class(alloc, Code::C2, classes, class),
        SolveEnd::TooFine { class } => at_class(alloc, Code::C3, classes, class),
        SolveEnd::Conflict { equation } => at_equation(Code::C4, equation),
        SolveEnd::NoMemory => End::NoMemory,
    }
}

/// Why the clocks make no clocking.
fn no_clocking(alloc: Global, classes: &Classes, end: CheckEnd) -> End<'static>
    requires within { HasPlaceIn classes.now end }
    requires short { All IsShort classes.now.places }
    ensures told { IsToldBy (told_checks classes.now end) result }
    ensures short { IsPrintable result }
{
    match end {
        CheckEnd::Factor { equation } => at_equation(Code::C5, equation),
        CheckEnd::EarlyStart { class } => at_class(alloc, Code::C6, classes, class),
        CheckEnd::NotOnEvent { class } => at_class(alloc, Code::C8, classes, class),
        CheckEnd::EventFactor { class } => at_class(alloc, Code::C9, classes, class),
        CheckEnd::HoldInCondition { equation } => at_equation(Code::C10, equation),
        CheckEnd::NoMemory => End::NoMemory,
    }
}

/// The only clocking of a model: its terms, their classes, the clocks of these, and what is asked of them all.
///
/// # Errors
///
/// The first rule of clocks that the model breaks, from C1 to C10 in the order of the stages, or want of memory.
///
/// Source: MLS 3.6, chapter 16, "Clock Partitioning" and "Sub-Clock Inferencing"; the order is this project's own.
#[tactic(auto, using(crate::proofs::Clocked::has_clauses, crate::proofs::Clocked::are_clocks))]
pub fn clocking_of(alloc: Global, flat: &FlatModel) -> Result<Clocking, End<'static>>
    requires { IsModel flat.now }
    ensures made { IfOk result (clocking_of flat.now).makes }
    ensures clocks { IfOk result AreClocks }
    ensures ended { IfErr result (Halts (clocking_of flat.now)) }
    ensures short { IfErr result IsPrintable }
{
    let terms = terms(alloc, flat)?;
    let classes = classes(alloc, flat, &terms)?;
    let grids = match solve(alloc, &terms, &classes) {
        Ok(grids) => grids,
        Err(end) => return Err(no_clocks(alloc, &classes, end)),
    };
    match check(alloc, flat, &terms, &classes, &grids) {
        Ok(clocking) => Ok(clocking),
        Err(end) => Err(no_clocking(alloc, &classes, end)),
    }
}
