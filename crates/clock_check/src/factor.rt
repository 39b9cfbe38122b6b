//! Factors that are to be inferred.
ghost use Rattle.std.specs.Prelude.{◌^◌, ◌<◌, ◌↔◌, ℕ, All, Bool, List, IsTrue};
ghost use Rattle.clock_terms.specs.Position.{progression_of_grid, IsFine, IsAt, at_ratio, part};
ghost use Rattle.clock_terms.specs.Asked.{Asks};
ghost use Rattle.flat_model.specs.declared.clock.Conversion.TheVariants.{Sub, Super};
ghost use Rattle.clock_spread.specs.Found.{HasEnds};
ghost use Rattle.clock_spread.specs.Least.{IsLeastOf, IsNumberIn};
ghost use Rattle.clock_check.specs.private.Numbering.{AreNumbers};
ghost use Rattle.clock_check.specs.Inferring.{IsInferred, FailsInferred};

use crate::numbers::grid_of_class;
use clock_spread::{are_same, lesser};
use clock_terms::{Grid, Relation};
use flat_model::Conversion;
use rational_time::Ratio;

/// Whether a period is a whole multiple of another, by a factor of at least 1.
fn is_multiple(of: Ratio, period: Ratio) -> bool
    ensures { IsTrue result ↔ ((f : ℕ) × (0 < f) × IsAt (at_ratio of) (part f 1 (at_ratio period))) }
{
    let num = u128::from(of.num()) * u128::from(period.den());
    let den = u128::from(of.den()) * u128::from(period.num());
    if num == 0 || den == 0 {
        return num == den;
    }
    let rest = num % den;
    rest == 0
}

/// Whether some whole factor makes the slower clock of the faster one.
pub(crate) fn is_some_factor(slower: Grid, faster: Grid) -> bool
    requires slower { IsFine (2 ^ 40) slower }
    requires faster { IsFine (2 ^ 40) faster }
    ensures sub { IsTrue result ↔ Asks (Sub 0) (progression_of_grid slower) (progression_of_grid faster) }
    ensures super_ { IsTrue result ↔ Asks (Super 0) (progression_of_grid faster) (progression_of_grid slower) }
{
    let same_period = Grid {
        period: faster.period,
        ..slower
    };
    is_multiple(slower.period, faster.period) && are_same(same_period, faster)
}

fn is_inferred(by: Conversion) -> bool
    ensures { IsTrue result ↔ IsInferred by }
{
    match by {
        Conversion::Sub(factor) => factor == 0,
        Conversion::Super(factor) => factor == 0,
        Conversion::Shift(_, _) => false,
        Conversion::Back(_, _) => false,
        Conversion::NoClock => false,
    }
}

/// Whether some whole factor makes the clocks fit a conversion whose factor is to be inferred.
fn fits(derived: Grid, argument: Grid, by: Conversion) -> bool
    requires derived { IsFine (2 ^ 40) derived }
    requires argument { IsFine (2 ^ 40) argument }
    requires inferred { IsInferred by }
    ensures { IsTrue result ↔ Asks by (progression_of_grid derived) (progression_of_grid argument) }
{
    match by {
        Conversion::Sub(_) => is_some_factor(derived, argument),
        _ => is_some_factor(argument, derived),
    }
}

/// Whether a relation with a factor that is to be inferred does not hold.
fn lacks_factor(
    numbers: &[Option<u32>],
    grids: &[Grid],
    class_of: &[u32],
    relation: Relation,
) -> bool
    requires ends { HasEnds class_of.now relation }
    requires fine { All (IsFine (2 ^ 40)) grids.now }
    ensures { (clocked : List Bool) → AreNumbers clocked numbers.now → IsTrue result ↔ FailsInferred class_of.now clocked grids.now relation }
{
    if !is_inferred(relation.by) {
        return false;
    }
    let Some(derived) = grid_of_class(numbers, grids, class_of[relation.result as usize]) else {
        return true;
    };
    let Some(argument) = grid_of_class(numbers, grids, class_of[relation.argument as usize]) else {
        return true;
    };
    !fits(derived, argument, relation.by)
}

/// The least equation of a relation with a factor that is to be inferred and that does not hold.
pub(crate) fn missing_factor(
    numbers: &[Option<u32>],
    grids: &[Grid],
    class_of: &[u32],
    relations: &[Relation],
) -> Option<u32>
    requires ends { All (HasEnds class_of.now) relations.now }
    requires fine { All (IsFine (2 ^ 40)) grids.now }
    ensures { (clocked : List Bool) → AreNumbers clocked numbers.now
        → IsLeastOf (IsNumberIn (λ relation. relation.equation) (FailsInferred class_of.now clocked grids.now) relations.now) result }
{
    let mut least = None;
    for relation in relations {
        least = lesser(
            least,
            relation.equation,
            lacks_factor(numbers, grids, class_of, *relation),
        );
    }
    least
}
