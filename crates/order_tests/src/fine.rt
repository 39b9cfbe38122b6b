//! Clocks on one grid.
ghost use Rattle.std.specs.Prelude.{◌≡◌, ◌<◌, ◌^◌, true, [], ◌∷◌};
ghost use Rattle.std.specs.Int.{◌∣◌};
ghost use Rattle.rational_time.specs.Fraction.{ArePartsBelow};
ghost use Rattle.rational_time.specs.Multiple.{AllDivide};
ghost use Rattle.flat_model.specs.Runnable.{AreClocks, CanRun, denominators};

use flat_model::{Clock, Clocking, Expr};
use rational_time::Ratio;

fn is_small(value: Ratio, grid: u64) -> bool
    ensures { result ≡ true → ArePartsBelow (2 ^ 40) value × (value.den ∣ grid) }
{
    value.num() < 1 << 40 && value.den() < 1 << 40 && grid % value.den() == 0
}

fn can_run(sites: &[Expr], clock: Clock, grid: u64) -> bool
    ensures { result ≡ true → CanRun sites.now clock × AllDivide (denominators (clock ∷ [])) grid }
{
    match clock {
        Clock::Periodic { period, start } => 0 < period.num()
            && is_small(period, grid)
            && is_small(start, grid),
        Clock::Event {
            site,
            factor,
            shift,
        } => (site as usize) < sites.len() && 0 < factor && factor < 1 << 40 && shift < 1 << 40,
    }
}

/// Whether clocks can be run, and all lie on a grid.
pub(crate) fn are_clocks(clocking: &Clocking, grid: u64) -> bool
    requires positive { 0 < grid }
    requires below { grid < 2 ^ 40 }
    ensures { result ≡ true → AreClocks clocking.now }
{
    for clock in clocking.clocks.as_slice() {
        if !can_run(clocking.sites.as_slice(), *clock, grid) {
            return false;
        }
    }
    true
}
