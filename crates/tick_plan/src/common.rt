ghost use Rattle.std.specs.Prelude.{◌∷◌, [], ◌≡◌, ℕ, ◌<◌, ◌^◌};
ghost use Rattle.std.specs.Int.{◌∣◌};
ghost use Rattle.rational_time.specs.Multiple.{HasMultipleBelow, IsLcm};
ghost use Rattle.rational_time.specs.declared.ratio.Ratio.{Ratio};
ghost use Rattle.flat_model.specs.Runnable.{denominators};
ghost use Rattle.flat_model.specs.declared.clock.Clock.TheVariants.{Periodic};
ghost use Rattle.tick_plan.specs.Making.{IsCommon, IsCommonOf, IsLeastMultiple};

use flat_model::Clock;
use rational_time::{Ratio, lcm};

/// The least common multiple of two numbers that have one below 2^40.
fn common(a: u64, b: u64) -> u64
    requires first { 0 < a }
    requires second { 0 < b }
    requires within { ∥ HasMultipleBelow (2 ^ 40) (a ∷ b ∷ []) ∥₁ }
    ensures { IsLcm a b result }
{
    lcm(a, b).unwrap()
}

/// The least common multiple of a number and the denominators of a clock.
pub(crate) fn with_clock(den: u64, period: Ratio, start: Ratio) -> u64
    requires some { 0 < den }
    requires within { ∥ HasMultipleBelow (2 ^ 40) (den ∷ period.den ∷ start.den ∷ []) ∥₁ }
    ensures some { 0 < result }
    ensures own { den ∣ result }
    ensures period { period.den ∣ result }
    ensures start { start.den ∣ result }
    ensures least { (m : ℕ) → den ∣ m → period.den ∣ m → start.den ∣ m → result ∣ m }
    ensures small { result < 2 ^ 40 }
{
    common(common(den, period.den()), start.den())
}

/// The same of a clock that may be one of an event.
fn with_one(den: u64, clock: Clock) -> u64
    requires some { 0 < den }
    requires within { (period start : Ratio) → clock ≡ Periodic period start → ∥ HasMultipleBelow (2 ^ 40) (den ∷ period.den ∷ start.den ∷ []) ∥₁ }
    ensures some { 0 < result }
    ensures own { den ∣ result }
    ensures parts { (period start : Ratio) → clock ≡ Periodic period start → (period.den ∣ result) × (start.den ∣ result) }
    ensures least { (m : ℕ) → den ∣ m → ((period start : Ratio) → clock ≡ Periodic period start → (period.den ∣ m) × (start.den ∣ m)) → result ∣ m }
{
    match clock {
        Clock::Periodic { period, start } => with_clock(den, period, start),
        Clock::Event { .. } => den,
    }
}

/// The least common denominator of all clocks in seconds, and 1 where there is none.
pub(crate) fn common_den(clocks: &[Clock]) -> u64
    requires { IsCommonOf clocks.now }
    ensures common { IsCommon clocks.now result }
    ensures small { result < 2 ^ 40 }
    ensures least { IsLeastMultiple (denominators clocks.now) result }
{
    let mut den = 1;
    for clock in clocks {
        den = with_one(den, *clock);
    }
    den
}
