//! Constructors and relations with a given factor that do not hold.
ghost use Rattle.std.specs.Prelude.{◌≡◌, ◌^◌, ◌<◌, ◌↔◌, ◌⊎◌, ℕ, All, List, [], length, IsTrue};
ghost use Rattle.clock_terms.specs.Position.{IsFine, IsProper};
ghost use Rattle.clock_terms.specs.Asked.{IsGiven};
ghost use Rattle.clock_terms.specs.Source.{Source};
ghost use Rattle.clock_terms.specs.Clocking.{Held, SourceHolds, RelationHolds};
ghost use Rattle.clock_spread.specs.Found.{IsFineFound, Agree, NoneLost, class_in, HasEnds};
ghost use Rattle.clock_spread.specs.Turn.{AreProper, said_by};
ghost use Rattle.clock_spread.specs.Least.{IsLeastOf, IsNumberIn};
ghost use Rattle.sub_clock_solve.specs.private.Given.{IsSource, AreSources};
ghost use Rattle.sub_clock_solve.specs.private.Failing.{Differs, FailsGiven, kept_grid};

use crate::given::Given;
use clock_spread::{Found, are_same, is_factor_given, is_related, lesser};
use clock_terms::{Grid, Relation};

fn kept(found: Found) -> Option<Grid>
    ensures { result ≡ kept_grid found }
{
    match found {
        Found::Kept(grid) => Some(grid),
        _ => None,
    }
}

/// Whether the class of a constructor has another clock, or none.
fn differs(found: &[Found], class_of: &[u32], given: Given) -> bool
    requires node { given.node < length class_of.now }
    requires classes { All (λ c. c < length found.now) class_of.now }
    requires fine { All IsFineFound found.now }
    requires given { IsFine (2 ^ 40) given.grid }
    requires kept { NoneLost found.now }
    ensures { (held : Held) (source : Source) → Agree found.now held → AreProper held → IsSource given source → IsProper source.clock
        → IsTrue result ↔ Differs class_of.now held source }
{
    match kept(found[class_of[given.node as usize] as usize]) {
        Some(grid) => !are_same(grid, given.grid),
        None => true,
    }
}

/// The least equation of a constructor that does not hold.
fn source_conflict(found: &[Found], class_of: &[u32], givens: &[Given]) -> Option<u32>
    requires nodes { All (λ given. given.node < length class_of.now) givens.now }
    requires classes { All (λ c. c < length found.now) class_of.now }
    requires fine { All IsFineFound found.now }
    requires givens { All (λ given. IsFine (2 ^ 40) given.grid) givens.now }
    requires kept { NoneLost found.now }
    ensures { (held : Held) (sources : List Source) → Agree found.now held → AreProper held → AreSources givens.now sources → All (λ s. IsProper s.clock) sources
        → IsLeastOf (IsNumberIn (λ s. s.equation) (Differs class_of.now held) sources) result }
{
    let mut least = None;
    for given in givens {
        least = lesser(least, given.equation, differs(found, class_of, *given));
    }
    least
}

/// Whether the clocks of the classes at the ends of a relation do not fit it.
fn is_broken(found: &[Found], class_of: &[u32], relation: Relation) -> bool
    requires ends { HasEnds class_of.now relation }
    requires classes { All (λ c. c < length found.now) class_of.now }
    requires fine { All IsFineFound found.now }
    requires given { IsGiven relation.by }
    requires kept { NoneLost found.now }
    ensures { (held : Held) → Agree found.now held → AreProper held → IsTrue result ↔ (RelationHolds (said_by class_of.now [] []) held relation → ⊥) }
{
    let Some(derived) = kept(found[class_of[relation.result as usize] as usize]) else {
        return true;
    };
    let Some(argument) = kept(found[class_of[relation.argument as usize] as usize]) else {
        return true;
    };
    !is_related(derived, argument, relation.by)
}

/// Whether a relation has a given factor and does not hold.
fn fails(found: &[Found], class_of: &[u32], relation: Relation) -> bool
    requires ends { HasEnds class_of.now relation }
    requires classes { All (λ c. c < length found.now) class_of.now }
    requires fine { All IsFineFound found.now }
    requires kept { NoneLost found.now }
    ensures { (held : Held) → Agree found.now held → AreProper held → IsTrue result ↔ FailsGiven class_of.now held relation }
{
    is_factor_given(relation.by) && is_broken(found, class_of, relation)
}

/// The least equation of a relation with a given factor that does not hold.
fn relation_conflict(found: &[Found], class_of: &[u32], relations: &[Relation]) -> Option<u32>
    requires ends { All (HasEnds class_of.now) relations.now }
    requires classes { All (λ c. c < length found.now) class_of.now }
    requires fine { All IsFineFound found.now }
    requires kept { NoneLost found.now }
    ensures { (held : Held) → Agree found.now held → AreProper held
        → IsLeastOf (IsNumberIn (λ r. r.equation) (FailsGiven class_of.now held) relations.now) result }
{
    let mut least = None;
    for relation in relations {
        least = lesser(least, relation.equation, fails(found, class_of, *relation));
    }
    least
}

/// The least equation of a constructor or of a relation with a given factor that does not hold.
pub(crate) fn conflict(
    found: &[Found],
    class_of: &[u32],
    givens: &[Given],
    relations: &[Relation],
) -> Option<u32>
    requires nodes { All (λ given. given.node < length class_of.now) givens.now }
    requires ends { All (HasEnds class_of.now) relations.now }
    requires classes { All (λ c. c < length found.now) class_of.now }
    requires fine { All IsFineFound found.now }
    requires givens { All (λ given. IsFine (2 ^ 40) given.grid) givens.now }
    requires kept { NoneLost found.now }
    ensures { (held : Held) (sources : List Source) → Agree found.now held → AreProper held → AreSources givens.now sources → All (λ s. IsProper s.clock) sources
        → IsLeastOf (λ e. IsNumberIn (λ s. s.equation) (Differs class_of.now held) sources e ⊎ IsNumberIn (λ r. r.equation) (FailsGiven class_of.now held) relations.now e) result }
{
    let of_sources = source_conflict(found, class_of, givens);
    match relation_conflict(found, class_of, relations) {
        Some(equation) => lesser(of_sources, equation, true),
        None => of_sources,
    }
}
