ghost use Rattle.std.specs.Prelude.{◌≡◌, ◌<◌, ◌^◌, length, map, option_map, slice_get, Some, None};
ghost use Rattle.flat_model.specs.declared.expression.Expr.{Expr};
ghost use Rattle.flat_model.specs.Values.{stated, truth_in, views_of};
ghost use Rattle.flat_model.specs.Meaning.{value_of};
ghost use Rattle.site_risings.specs.SiteFailures.{IsFailingOver, TellsFirst};

use crate::reads::lacks;
use flat_model::{Answer, Expr, answer};
use sync_values::{Fail, Value};

/// A site whose condition fails, and how.
#[derive(Clone, Copy, Debug, PartialEq, Eq)]
pub struct SiteFailing {
    pub site: u32,
    pub kind: Fail,
}

/// The truth value of an answer that is one.
fn truth(answer: Answer) -> Option<bool>
    ensures { result ≡ truth_in (stated answer) }
{
    match answer {
        Answer::Is(Value::Bool(truth)) => Some(truth),
        _ => None,
    }
}

/// How a condition fails whose names all have values.
#[tactic(auto, using(crate::proofs::Answering::fails_so, crate::proofs::Answering::lacks_some, crate::proofs::Answering::value_not, crate::proofs::Answering::absent_not))]
fn failure(condition: &Expr, now: &[Option<Value>], found: Answer) -> Option<Fail>
    requires { stated found ≡ value_of condition.now (views_of now.now) }
    ensures { IsFailingOver now.now condition.now result }
{
    match found {
        Answer::Fails(kind) => {
            if lacks(condition, now) {
                return None;
            }
            Some(kind)
        }
        Answer::Is(_) => None,
        Answer::Absent => None,
    }
}

/// What the condition of a site gives.
fn found_at(sites: &[Expr], site: usize, now: &[Option<Value>]) -> Answer
    ensures { (condition : Expr) → slice_get sites.now site ≡ Some condition → stated result ≡ value_of condition (views_of now.now) }
{
    match sites.get(site) {
        Some(condition) => answer(condition, now),
        None => Answer::Absent,
    }
}

/// How the condition of a site fails whose names all have values.
fn failure_at(sites: &[Expr], site: usize, now: &[Option<Value>], found: Answer) -> Option<Fail>
    requires { (condition : Expr) → slice_get sites.now site ≡ Some condition → stated found ≡ value_of condition (views_of now.now) }
    ensures { (condition : Expr) → slice_get sites.now site ≡ Some condition → IsFailingOver now.now condition result }
{
    match sites.get(site) {
        Some(condition) => failure(condition, now, found),
        None => None,
    }
}

/// The first of two failures.
fn first_of(failing: Option<SiteFailing>, site: u32, kind: Option<Fail>) -> Option<SiteFailing>
    ensures some { (f : SiteFailing) → failing ≡ Some f → result ≡ Some f }
    ensures none { failing ≡ None → result ≡ option_map (λ k. record { site = site; kind = k }) kind }
{
    if failing.is_some() {
        return failing;
    }
    match kind {
        Some(kind) => Some(SiteFailing { site, kind }),
        None => None,
    }
}

/// What the conditions of sites give over the values of a moment: a truth value, or nothing. The answer is the site of
/// least number that fails, its names all having values. It takes no memory.
///
/// Source: MLS 3.6, chapter 16, "Clock Constructors", in this project's profile.
pub fn answer_sites(
    sites: &[Expr],
    now: &[Option<Value>],
    answers: &mut [Option<bool>],
) -> Option<SiteFailing>
    requires long { length answers.old ≡ length sites.now }
    requires few { length sites.now < 2 ^ 32 }
    ensures answers { answers.new ≡ map (λ condition. truth_in (value_of condition (views_of now.now))) sites.now }
    ensures failing { TellsFirst now.now sites.now result }
{
    let mut failing = None;
    for site in 0..sites.len() {
        let found = found_at(sites, site, now);
        answers[site] = truth(found);
        failing = first_of(failing, site as u32, failure_at(sites, site, now, found));
    }
    failing
}
