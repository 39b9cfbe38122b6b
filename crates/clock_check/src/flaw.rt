//! Starts, shifts and factors that no clock may have.
ghost use Rattle.std.specs.Prelude.{◌≡◌, ◌↔◌, length, Bool, List, IsTrue};
ghost use Rattle.clock_terms.specs.declared.data.Grid.{Grid};
ghost use Rattle.clock_spread.specs.Least.{IsLeastOf};
ghost use Rattle.clock_check.specs.private.Numbering.{AreNumbers};
ghost use Rattle.clock_check.specs.private.Flaws.{HasFlaw, IsFlawAt};

use crate::numbers::grid_of_class;
use clock_terms::Grid;

/// What may be wrong with one clock.
#[derive(Clone, Copy)]
pub(crate) enum Flaw {
    /// A clock in seconds starts before 0.
    Early,
    /// The shift on the risings of a site is below 0 or not whole.
    Shift,
    /// The factor on the risings of a site is not whole.
    Factor,
}

fn has_flaw(grid: Grid, flaw: Flaw) -> bool
    ensures { IsTrue result ↔ HasFlaw flaw grid }
{
    match flaw {
        Flaw::Early => grid.site.is_none() && grid.negative,
        Flaw::Shift => grid.site.is_some() && (grid.negative || grid.start.den() != 1),
        Flaw::Factor => grid.site.is_some() && grid.period.den() != 1,
    }
}

/// Whether there is a clock that has the flaw.
fn is_flawed(grid: Option<Grid>, flaw: Flaw) -> bool
    ensures { IsTrue result ↔ ((g : Grid) × (grid ≡ Some g) × HasFlaw flaw g) }
{
    match grid {
        Some(grid) => has_flaw(grid, flaw),
        None => false,
    }
}

/// The first class whose clock has the flaw.
pub(crate) fn first_with(
    numbers: &[Option<u32>],
    grids: &[Grid],
    count: u32,
    flaw: Flaw,
) -> Option<u32>
    requires { count ≡ length numbers.now }
    ensures { (clocked : List Bool) → AreNumbers clocked numbers.now → IsLeastOf (IsFlawAt flaw clocked grids.now) result }
{
    for class in 0..count {
        if is_flawed(grid_of_class(numbers, grids, class), flaw) {
            return Some(class);
        }
    }
    None
}
