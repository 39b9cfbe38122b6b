//! The clocks of the clocked classes, with their least common denominator.
ghost use Rattle.std.specs.Prelude.{◌≡◌, ◌^◌, ◌<◌, ◌≤◌, ◌++◌, ◌∷◌, [], ℕ, All, List, length, IfOk, OnOk, IsTrue, ◌↔◌, ◌+◌, MatchOption, true, take};
ghost use Rattle.rational_time.specs.Multiple.{IsLcm, HasMultipleBelow};
ghost use Rattle.clock_spread.specs.Found.{IsFineFound, found_of};
ghost use Rattle.clock_spread.specs.Queue.{marked};
ghost use Rattle.clock_spread.specs.Least.{IsLeastOf};
ghost use Rattle.sub_clock_solve.specs.Grain.{own_denominators, denominators, IsGrain};
ghost use Rattle.sub_clock_solve.specs.private.Gathering.{kept_of, kept_grids};

use clock_spread::Found;
use clock_terms::Grid;
use rational_time::lcm;
use std::alloc::{AllocError, Global};
use sync_values::List;

fn is_not(found: Found) -> bool
    ensures { IsTrue result ↔ (found ≡ Found.Not) }
{
    matches!(found, Found::Not)
}

/// The first clocked class without a clock.
pub(crate) fn first_unknown(found: &[Found], clocked: &[bool], count: u32) -> Option<u32>
    requires count { count ≡ length clocked.now }
    requires found { length found.now ≡ length clocked.now }
    ensures { IsLeastOf (λ c. (marked clocked.now c ≡ true) × (found_of found.now c ≡ Found.Not)) result }
{
    for class in 0..count {
        if clocked[class as usize] && is_not(found[class as usize]) {
            return Some(class);
        }
    }
    None
}

/// The least common multiple, where it is below the limit.
fn common(grain: u64, denominator: u64) -> Option<u64>
    requires grain { 0 < grain }
    requires denominator { 0 < denominator }
    ensures { MatchOption result ((m : ℕ) × IsLcm grain denominator m × (2 ^ 40 ≤ m)) (λ m. IsLcm grain denominator m × (m < 2 ^ 40)) }
{
    let multiple = lcm(grain, denominator)?;
    if multiple < 1 << 40 {
        Some(multiple)
    } else {
        None
    }
}

/// The least common denominator with one clock more, where it is below the limit.
fn with_clock(grain: u64, grid: Grid) -> Option<u64>
    requires positive { 0 < grain }
    requires below { grain < 2 ^ 40 }
    ensures { (ns : List ℕ) → IsGrain ns grain → MatchOption result
        (HasMultipleBelow (2 ^ 40) (ns ++ own_denominators grid.site grid) → ⊥)
        (λ m. IsGrain (ns ++ own_denominators grid.site grid) m × (m < 2 ^ 40)) }
{
    if grid.site.is_some() {
        return Some(grain);
    }
    common(common(grain, grid.period.den())?, grid.start.den())
}

/// The same with the clock of a class, where it is clocked and has one.
fn with_class(grain: u64, clocked: bool, found: Found) -> Option<u64>
    requires positive { 0 < grain }
    requires below { grain < 2 ^ 40 }
    requires found { IsFineFound found }
    ensures { (ns : List ℕ) → IsGrain ns grain → MatchOption result
        (HasMultipleBelow (2 ^ 40) (ns ++ denominators (kept_of clocked found)) → ⊥)
        (λ m. IsGrain (ns ++ denominators (kept_of clocked found)) m × (m < 2 ^ 40)) }
{
    match found {
        Found::Kept(grid) if clocked => with_clock(grain, grid),
        _ => Some(grain),
    }
}

/// The class at which the least common denominator, taken class by class, reaches the limit.
pub(crate) fn first_coarse(found: &[Found], clocked: &[bool], count: u32) -> Option<u32>
    requires count { count ≡ length clocked.now }
    requires found { length found.now ≡ length clocked.now }
    requires fine { All IsFineFound found.now }
    ensures { MatchOption result (HasMultipleBelow (2 ^ 40) (denominators (kept_grids found.now clocked.now)))
        (λ c. (c < length clocked.now)
        × HasMultipleBelow (2 ^ 40) (denominators (kept_grids (take c found.now) (take c clocked.now)))
        × (HasMultipleBelow (2 ^ 40) (denominators (kept_grids (take (c + 1) found.now) (take (c + 1) clocked.now))) → ⊥)) }
{
    let mut grain = 1;
    for class in 0..count {
        let Some(next) = with_class(grain, clocked[class as usize], found[class as usize]) else {
            return Some(class);
        };
        grain = next;
    }
    None
}

/// The clocks of the clocked classes, in their order.
pub(crate) fn gathered(
    alloc: Global,
    found: &[Found],
    clocked: &[bool],
) -> Result<List<Grid>, AllocError>
    requires { length found.now ≡ length clocked.now }
    ensures { IfOk result (λ grids. grids ≡ kept_grids found.now clocked.now) }
{
    let mut grids = List::new(alloc);
    for (class, one) in found.iter().enumerate() {
        if clocked[class] {
            keep(&mut grids, *one)?;
        }
    }
    Ok(grids)
}

fn keep(grids: &mut List<Grid>, found: Found) -> Result<(), AllocError>
    ensures { OnOk result (grids.new ≡ grids.old ++ kept_of true found) }
{
    match found {
        Found::Kept(grid) => grids.push(grid),
        _ => Ok(()),
    }
}
