//! The clocking of a model.
ghost use Rattle.std.specs.Prelude.{◌≡◌, ◌⊎◌, ◌^◌, ◌<◌, ℕ, All, List, Option, length, IfOk, MatchOption, vec_len};
ghost use Rattle.clock_terms.specs.Asked.{IsGiven};
ghost use Rattle.clock_terms.specs.Position.{IsFine};
ghost use Rattle.clock_terms.specs.Said.{AreTermsOf};
ghost use Rattle.clock_terms.specs.Classing.{AreClassesOf};
ghost use Rattle.sub_clock_solve.specs.Solving.{IsSolution};
ghost use Rattle.sub_clock_solve.specs.Standing.{FitTogether};
ghost use Rattle.clock_check.specs.private.Numbering.{AreNumbers};
ghost use Rattle.clock_check.specs.Inferring.{IsInferred};
ghost use Rattle.clock_check.specs.private.Made.{IsMade};
ghost use Rattle.clock_check.specs.Checking.{Checks, AreFactorsWhole, BreaksRule};

use crate::condition::held_condition;
use crate::factor::missing_factor;
use crate::flaw::{Flaw, first_with};
use crate::kinds::CheckEnd;
use crate::numbers::numbers_of;
use crate::parts::{clocks, of_equation, of_name, partitions, sites};
use clock_terms::{Classes, Grid, Grids, Terms};
use flat_model::{Clocking, FlatModel};
use std::alloc::{AllocError, Global};

/// The first rule of relations and single clocks that is broken.
fn broken_rule(
    numbers: &[Option<u32>],
    grids: &[Grid],
    terms: &Terms,
    classes: &Classes,
    count: u32,
) -> Option<CheckEnd>
    requires fit { FitTogether terms.now classes.now }
    requires numbers { AreNumbers classes.now.clocked numbers.now }
    requires count { count ≡ length numbers.now }
    requires fine { All (IsFine (2 ^ 40)) grids.now }
    ensures { MatchOption result (AreFactorsWhole terms.now classes.now grids.now) (BreaksRule terms.now classes.now grids.now) }
{
    let class_of = classes.class_of.as_slice();
    if let Some(equation) = missing_factor(numbers, grids, class_of, terms.relations.as_slice()) {
        return Some(CheckEnd::Factor { equation });
    }
    if let Some(class) = first_with(numbers, grids, count, Flaw::Early) {
        return Some(CheckEnd::EarlyStart { class });
    }
    if let Some(class) = first_with(numbers, grids, count, Flaw::Shift) {
        return Some(CheckEnd::NotOnEvent { class });
    }
    if let Some(class) = first_with(numbers, grids, count, Flaw::Factor) {
        return Some(CheckEnd::EventFactor { class });
    }
    None
}

/// The parts of the clocking.
fn made(
    alloc: Global,
    flat: &FlatModel,
    terms: &Terms,
    classes: &Classes,
    grids: &[Grid],
    numbers: &[Option<u32>],
) -> Result<Clocking, AllocError>
    requires terms { AreTermsOf flat.now terms.now }
    requires classes { AreClassesOf flat.now classes.now }
    requires fit { FitTogether terms.now classes.now }
    requires numbers { AreNumbers classes.now.clocked numbers.now }
    ensures { IfOk result (IsMade flat.now terms.now classes.now grids.now numbers.now) }
{
    let names = flat.names.as_slice();
    let class_of = classes.class_of.as_slice();
    Ok(Clocking {
        of_name: of_name(alloc, names, class_of, numbers)?,
        of_equation: of_equation(
            alloc,
            terms.nodes.as_slice(),
            names.len(),
            class_of,
            numbers,
        )?,
        clocks: clocks(alloc, grids)?,
        partitions: partitions(
            alloc,
            classes.clocked.as_slice(),
            classes.partition.as_slice(),
        )?,
        sites: sites(alloc, terms.constructors.as_slice())?,
    })
}

/// The clocking of a model: the clock of each class, with the classes, the base partitions and the conditions of sites.
///
/// Otherwise the first of these that is broken: each factor that is to be inferred is whole, and the starts agree; no
/// clock in seconds starts before 0; the shifts and then the factors of clocks on the risings of a site are whole;
/// no `hold` stands in the class of an event condition.
///
/// Source: MLS 3.6, chapter 16, "Sub-Clock Inferencing" and "Clock Constructors"; the order and the limits are this
/// project's own.
pub fn check(
    alloc: Global,
    flat: &FlatModel,
    terms: &Terms,
    classes: &Classes,
    grids: &Grids,
) -> Result<Clocking, CheckEnd>
    requires terms { AreTermsOf flat.now terms.now }
    requires classes { AreClassesOf flat.now classes.now }
    requires fit { FitTogether terms.now classes.now }
    requires factors { All (λ relation. IsGiven relation.by ⊎ IsInferred relation.by) terms.now.relations }
    requires grids { IsSolution terms.now classes.now grids.now }
    ensures { Checks flat.now terms.now classes.now grids.now result }
{
    let numbers = numbers_of(alloc, classes.clocked.as_slice())?;
    // A number of classes that does not fit counts as no memory.
    let Ok(count) = u32::try_from(numbers.len()) else {
        return Err(CheckEnd::NoMemory);
    };
    if let Some(end) = broken_rule(&numbers, grids.as_slice(), terms, classes, count) {
        return Err(end);
    }
    let held = held_condition(
        alloc,
        numbers.len(),
        classes.class_of.as_slice(),
        terms.holds.as_slice(),
        terms.nodes.as_slice(),
        flat.names.len(),
    )?;
    if let Some(equation) = held {
        return Err(CheckEnd::HoldInCondition { equation });
    }
    Ok(made(alloc, flat, terms, classes, grids.as_slice(), &numbers)?)
}
