ghost use Rattle.std.specs.Prelude.{◌≡◌, ℕ, ◌*◌, ◌<◌, ◌^◌, ◌↔◌, IsTrue, [], ◌∷◌};
ghost use Rattle.std.specs.Int.{◌∣◌};
ghost use Rattle.rational_time.specs.Fraction.{ArePartsBelow, IsTickWithin, IsSameTick};
ghost use Rattle.rational_time.specs.Multiple.{HasMultipleBelow, IsLcm};

use crate::divisor::{lcm, wide_gcd};
use crate::floor::floor_of_product;
use crate::ratio::Ratio;

/// How many k from 0 have `start + k*period` not above `stop`.
pub fn ticks_until(period: Ratio, start: Ratio, stop: Ratio) -> u128
    requires rising { 0 < period.num }
    requires period { ArePartsBelow (2 ^ 40) period }
    requires start { ArePartsBelow (2 ^ 40) start }
    requires stop { stop.num < 2 ^ 21 * stop.den }
    requires stop_grain { stop.den < 2 ^ 40 }
    ensures { (k : ℕ) → (k < result) ↔ IsTickWithin period start k stop }
{
    let unit = u128::from(start.den) * u128::from(period.den);
    let first = u128::from(start.num) * u128::from(period.den);
    let step = u128::from(period.num) * u128::from(start.den);
    let last = floor_of_product(u128::from(stop.num), u128::from(stop.den), unit);
    if first > last {
        0
    } else {
        (last - first) / step + 1
    }
}

/// Whether two clocks share an instant: some i and j from 0 have `s + i*p = r + j*q`.
pub fn share_instant(p: Ratio, s: Ratio, q: Ratio, r: Ratio) -> bool
    requires first_rising { 0 < p.num }
    requires second_rising { 0 < q.num }
    requires grain { HasMultipleBelow (2 ^ 40) (p.den ∷ s.den ∷ q.den ∷ r.den ∷ []) }
    ensures { IsTrue result ↔ ((i : ℕ) × (j : ℕ) × IsSameTick p s i q r j) }
{
    let grain = common_multiple(common_multiple(p.den, s.den), common_multiple(q.den, r.den));
    let first = units(s, grain);
    let step = units(p, grain);
    let other = units(r, grain);
    let other_step = units(q, grain);
    // Whole steps make up just the distances that every common divisor of the steps divides.
    let divisor = wide_gcd(step, other_step);
    let rest = first.abs_diff(other) % divisor;
    rest == 0
}

/// The least common multiple of two numbers that have one below 2^40.
fn common_multiple(a: u64, b: u64) -> u64
    requires first { 0 < a }
    requires second { 0 < b }
    requires within { HasMultipleBelow (2 ^ 40) (a ∷ b ∷ []) }
    ensures { IsLcm a b result }
{
    lcm(a, b).unwrap()
}

/// How many units of `1/grain` the fraction has.
fn units(a: Ratio, grain: u64) -> u128
    requires { a.den ∣ grain }
    ensures { result * a.den ≡ a.num * grain }
{
    u128::from(a.num) * u128::from(grain / a.den)
}
