//! The four calls in a row.
ghost use Rattle.std.specs.Prelude.{All, ◌⊎◌};
ghost use Rattle.flat_model.specs.Models.{IsModel};
ghost use Rattle.flat_model.specs.RawModels.{IsRawModel};
ghost use Rattle.clock_terms.specs.Asked.{IsGiven};
ghost use Rattle.clock_terms.specs.Said.{AreTermsOf};
ghost use Rattle.clock_terms.specs.Classing.{AreClassesOf};
ghost use Rattle.sub_clock_solve.specs.Standing.{FitTogether};
ghost use Rattle.clock_ready.specs.Laws.{HaveKnownFactors};

use crate::printed::{check_refusal, class_refusal, solve_refusal};
use crate::raw::raw_model;
use base_partition::classes;
use clock_check::check;
use clock_ready::fit_law;
use clock_terms::{Classes, Terms, terms};
use flat_model::{Clocking, FlatModel, RawModel};
use flat_types::typed;
use std::alloc::Global;
use std::process::Abort;
use sub_clock_solve::solve;
use typed_model::model_law;

/// The typed model of a raw one that breaks no rule of types.
fn flat_model(rt: &impl Abort, alloc: Global, raw: &RawModel) -> FlatModel
    requires { IsRawModel raw.now }
    ensures { IsModel result }
{
    model_law();
    typed(alloc, raw).expect(rt, "types")
}

/// The clocking of classes, or the refusal.
fn solved(
    rt: &impl Abort,
    alloc: Global,
    flat: &FlatModel,
    terms: &Terms,
    classes: &Classes,
) -> Result<Clocking, String>
    requires terms { AreTermsOf flat.now terms.now }
    requires classes { AreClassesOf flat.now classes.now }
    requires fit { FitTogether terms.now classes.now }
    requires factors { HaveKnownFactors terms.now }
{
    let grids = match solve(alloc, terms, classes) {
        Ok(grids) => grids,
        Err(end) => return Err(solve_refusal(alloc, classes, end).expect(rt, "memory")),
    };
    match check(alloc, flat, terms, classes, &grids) {
        Ok(clocking) => Ok(clocking),
        Err(end) => Err(check_refusal(alloc, classes, end).expect(rt, "memory")),
    }
}

/// The clocking of a model, or the refusal.
fn clocked(rt: &impl Abort, alloc: Global, flat: &FlatModel) -> Result<Clocking, String>
    requires { IsModel flat.now }
{
    fit_law();
    let terms = terms(alloc, flat).expect(rt, "memory");
    match classes(alloc, flat, &terms) {
        Ok(classes) => solved(rt, alloc, flat, &terms, &classes),
        Err(end) => Err(class_refusal(alloc, &end).expect(rt, "memory")),
    }
}

/// The model of a text, with its clocking or the refusal.
pub(crate) fn clocking_of(
    rt: &impl Abort,
    alloc: Global,
    text: &str,
) -> (FlatModel, Result<Clocking, String>) {
    let raw = raw_model(rt, alloc, text.as_bytes());
    let flat = flat_model(rt, alloc, &raw);
    let clocking = clocked(rt, alloc, &flat);
    (flat, clocking)
}
