//! The clocks of a model.
ghost use Rattle.std.specs.Prelude.{◌≡◌, ◌^◌, ◌<◌, ℕ, All, List, length, IfOk, vec_len, true};
ghost use Rattle.clock_terms.specs.Position.{Progression, IsFine, IsProper, IsTooFine};
ghost use Rattle.clock_terms.specs.Source.{Source, sources_of};
ghost use Rattle.clock_spread.specs.Found.{IsFineFound, found_of, HasEnds};
ghost use Rattle.clock_spread.specs.Queue.{marked};
ghost use Rattle.clock_spread.specs.Turn.{said_by, Settles};
ghost use Rattle.sub_clock_solve.specs.private.Given.{AreSources};
ghost use Rattle.sub_clock_solve.specs.Solving.{Solves};
ghost use Rattle.sub_clock_solve.specs.Standing.{FitTogether, HaveClasses};
ghost use Rattle.sub_clock_solve.specs.private.Seeding.{start_of};
ghost use Rattle.sub_clock_solve.specs.private.Spreading.{IsSpread};

use crate::conflict::conflict;
use crate::gather::{first_coarse, first_unknown, gathered};
use crate::given::{Given, given_clocks};
use crate::kinds::SolveEnd;
use crate::seed::seeds;
use clock_spread::{Found, spread};
use clock_terms::{Classes, Grids, Relation, Terms};
use std::alloc::{AllocError, Global};
use sync_values::List;

/// What is known of each class when all rounds are done, and the class whose clock was too fine first.
#[derive(Drop)]
struct Spread {
    found: Vec<Found>,
    lost: Option<u32>,
}

/// The clocks after all rounds.
fn spread_all(
    alloc: Global,
    givens: &[Given],
    relations: &[Relation],
    class_of: &[u32],
    clocked: &[bool],
) -> Result<Spread, AllocError>
    requires nodes { All (λ given. given.node < length class_of.now) givens.now }
    requires ends { All (HasEnds class_of.now) relations.now }
    requires classes { All (λ c. c < length clocked.now) class_of.now }
    requires fine { All (λ given. IsFine (2 ^ 40) given.grid) givens.now }
    ensures length { IfOk result (λ all. vec_len all.found ≡ length clocked.now) }
    ensures fine { IfOk result (λ all. All IsFineFound all.found.items) }
    ensures start { IfOk result (λ all. (sources : List Source) → AreSources givens.now sources → All (λ s. IsProper s.clock) sources
        → (c : ℕ) (p : Progression) → start_of class_of.now clocked.now sources c ≡ Some p → IsTooFine (2 ^ 40) p → ⊥) }
    ensures settles { IfOk result (λ all. (sources : List Source) → AreSources givens.now sources → All (λ s. IsProper s.clock) sources
        → Settles (said_by class_of.now clocked.now relations.now) (start_of class_of.now clocked.now sources) all.found.items all.lost) }
{
    let mut found = seeds(alloc, clocked, class_of, givens)?;
    let lost = spread(alloc, &mut found, relations, class_of, clocked)?;
    Ok(Spread { found, lost })
}

/// What all clocks taken together say, where each class has one and none is too fine.
fn fitting(
    alloc: Global,
    found: &[Found],
    givens: &[Given],
    terms: &Terms,
    classes: &Classes,
    count: u32,
) -> Result<Grids, SolveEnd>
    requires fit { HaveClasses terms.now classes.now }
    requires count { count ≡ length classes.now.clocked }
    requires givens { AreSources givens.now (sources_of terms.now.constructors) }
    requires spread { IsSpread terms.now classes.now found.now None }
    requires known { (c : ℕ) → marked classes.now.clocked c ≡ true → found_of found.now c ≡ Found.Not → ⊥ }
    ensures { Solves terms.now classes.now result }
{
    let clocked = classes.clocked.as_slice();
    if let Some(class) = first_coarse(found, clocked, count) {
        return Err(SolveEnd::TooFine { class });
    }
    let class_of = classes.class_of.as_slice();
    if let Some(equation) = conflict(found, class_of, givens, terms.relations.as_slice()) {
        return Err(SolveEnd::Conflict { equation });
    }
    Ok(gathered(alloc, found, clocked)?)
}

/// What the clocks say after all rounds.
fn judged(
    alloc: Global,
    all: &Spread,
    givens: &[Given],
    terms: &Terms,
    classes: &Classes,
) -> Result<Grids, SolveEnd>
    requires fit { HaveClasses terms.now classes.now }
    requires givens { AreSources givens.now (sources_of terms.now.constructors) }
    requires spread { IsSpread terms.now classes.now all.now.found.items all.now.lost }
    ensures { Solves terms.now classes.now result }
{
    // A number of classes that does not fit counts as no memory.
    let Ok(count) = u32::try_from(classes.clocked.len()) else {
        return Err(SolveEnd::NoMemory);
    };
    if let Some(class) = first_unknown(&all.found, classes.clocked.as_slice(), count) {
        return Err(SolveEnd::Unknown { class });
    }
    if let Some(class) = all.lost {
        return Err(SolveEnd::TooFine { class });
    }
    fitting(alloc, &all.found, givens, terms, classes, count)
}

/// The same, where there are classes at all.
fn solve_some(alloc: Global, terms: &Terms, classes: &Classes) -> Result<Grids, SolveEnd>
    requires { HaveClasses terms.now classes.now }
    ensures { Solves terms.now classes.now result }
{
    let givens = given_clocks(alloc, terms.constructors.as_slice())?;
    let relations = terms.relations.as_slice();
    let class_of = classes.class_of.as_slice();
    let all = spread_all(
        alloc,
        &givens,
        relations,
        class_of,
        classes.clocked.as_slice(),
    )?;
    judged(alloc, &all, &givens, terms, classes)
}

/// The clocks of the clocked classes: those that the constructors and the conversions with a given factor give, round
/// by round.
///
/// Otherwise the first of these that is broken: each clocked class gets a clock; the parts of each clock and the
/// least common denominator of the clocks in seconds are below 2^40; each constructor that is not inferred and each
/// relation with a given factor holds. Where one of the last does not hold, no clocks at all meet the model.
///
/// Source: MLS 3.6, chapter 16, "Sub-Clock Inferencing"; the rounds, the limits and the order are this project's own.
pub fn solve(alloc: Global, terms: &Terms, classes: &Classes) -> Result<Grids, SolveEnd>
    requires { FitTogether terms.now classes.now }
    ensures { Solves terms.now classes.now result }
{
    if classes.clocked.is_empty() {
        return Ok(List::new(alloc));
    }
    solve_some(alloc, terms, classes)
}
