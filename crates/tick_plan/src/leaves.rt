ghost use Rattle.std.specs.Prelude.{◌≡◌, ℕ, ◌<◌, ◌≤◌, length, get_or, slice_get, Some, IfOk, Contains};
ghost use Rattle.std.specs.Int.{◌∣◌};
ghost use Rattle.rational_time.specs.declared.ratio.Ratio.{Ratio};
ghost use Rattle.flat_model.specs.declared.clock.Clock.TheVariants.{Periodic};
ghost use Rattle.tick_plan.specs.private.Course.{IsPeriodic};
ghost use Rattle.tick_plan.specs.private.Grid.{CountsTo, IsScaled, HaveFactors};
ghost use Rattle.tick_plan.specs.private.Leaves.{IsLeafOf, leaf_at};
ghost use Rattle.tick_plan.specs.Making.{IsCommon, AreCountable};
ghost use Rattle.tick_plan.specs.declared.leaves.Leaf.{Leaf};

use crate::making::units_of;
use flat_model::Clock;
use std::alloc::{AllocError, Global};

/// The start and the period of a clock in units.
#[derive(Clone, Copy, PartialEq, Eq, PartialOrd, Ord)]
pub struct Leaf {
    pub(crate) first: u64,
    pub(crate) step: u64,
}

/// The starts and the periods of clocks in units.
#[derive(Drop)]
pub struct Units {
    pub(crate) firsts: Vec<u64>,
    pub(crate) steps: Vec<u64>,
}

/// The start and the period of a clock in units, where it is one in seconds.
fn units_in(clock: Clock, den: u64, limit: u64) -> Leaf
    requires { (period start : Ratio) → clock ≡ Periodic period start → (period.den ∣ den) × (start.den ∣ den) }
    ensures { (period start : Ratio) → clock ≡ Periodic period start → CountsTo den limit start result.first × CountsTo den limit period result.step }
{
    match clock {
        Clock::Periodic { period, start } => Leaf {
            first: units_of(start, den, limit),
            step: units_of(period, den, limit),
        },
        Clock::Event { .. } => Leaf {
            first: limit,
            step: limit,
        },
    }
}

/// The starts and the periods of the clocks in units, by their numbers. Those of Event clocks have no meaning.
pub(crate) fn scaled(
    alloc: Global,
    clocks: &[Clock],
    den: u64,
    limit: u64,
) -> Result<Units, AllocError>
    requires common { IsCommon clocks.now den }
    requires countable { AreCountable clocks.now }
    requires factors { HaveFactors clocks.now }
    requires some { 0 < limit }
    ensures { IfOk result (λ units. IsScaled clocks.now den limit units.firsts.items units.steps.items) }
{
    let mut firsts = Vec::with_capacity(alloc, clocks.len())?;
    let mut steps = Vec::with_capacity(alloc, clocks.len())?;
    for clock in clocks {
        let units = units_in(*clock, den, limit);
        firsts.push(units.first)?;
        steps.push(units.step)?;
    }
    Ok(Units { firsts, steps })
}

/// A leaf for each clock in seconds, each leaf once.
pub(crate) fn leaves(
    alloc: Global,
    clocks: &[Clock],
    firsts: &[u64],
    steps: &[u64],
) -> Result<Vec<Leaf>, AllocError>
    requires firsts { length firsts.now ≡ length clocks.now }
    requires steps { length steps.now ≡ length clocks.now }
    ensures each { IfOk result (λ leaves. (leaf : Leaf) → Contains leaves.items leaf → IsLeafOf clocks.now firsts.now steps.now leaf) }
    ensures short { IfOk result (λ leaves. length leaves.items ≤ length clocks.now) }
    ensures all { IfOk result (λ leaves. (i : ℕ) (period start : Ratio) → IsPeriodic clocks.now i period start → Contains leaves.items (leaf_at firsts.now steps.now i)) }
{
    let mut leaves = Vec::with_capacity(alloc, clocks.len())?;
    for class in 0..clocks.len() {
        if let Clock::Periodic { .. } = clocks[class] {
            leaves.push(Leaf {
                first: firsts[class],
                step: steps[class],
            })?;
        }
    }
    leaves.sort_unstable();
    leaves.dedup();
    Ok(leaves)
}

/// The starts and the periods of the leaves.
pub(crate) fn parts(alloc: Global, leaves: &[Leaf]) -> Result<Units, AllocError>
    ensures firsts { IfOk result (λ units. length units.firsts.items ≡ length leaves.now) }
    ensures steps { IfOk result (λ units. length units.steps.items ≡ length leaves.now) }
    ensures each { IfOk result (λ units. (j : ℕ) (leaf : Leaf) → slice_get leaves.now j ≡ Some leaf
        → (get_or units.firsts.items j 0 ≡ leaf.first) × (get_or units.steps.items j 0 ≡ leaf.step)) }
{
    let mut firsts = Vec::with_capacity(alloc, leaves.len())?;
    let mut steps = Vec::with_capacity(alloc, leaves.len())?;
    for leaf in leaves {
        let leaf = *leaf;
        firsts.push(leaf.first)?;
        steps.push(leaf.step)?;
    }
    Ok(Units { firsts, steps })
}
