ghost use Rattle.std.specs.Prelude.{◌≡◌, ℕ, ◌+◌, ◌-◌, ◌*◌, ◌<◌, ◌≤◌, ◌^◌, ◌↔◌, IfSome, IsNone};
ghost use Rattle.rational_time.specs.Fraction.{AtMost, IsFloor, second_limit};

use crate::ratio::Ratio;

/// The floor of `num * times / den`, where the product itself may be too wide.
pub(crate) fn floor_of_product(num: u128, den: u128, times: u128) -> u128
    requires divisor { 0 < den }
    requires width { den * times < 2 ^ 128 }
    requires fits { num * times < 2 ^ 128 * den }
    ensures { IsFloor (num * times) den result }
{
    num / den * times + num % den * times / den
}

/// The floor of `a * k`.
pub fn floor_times(a: Ratio, k: u32) -> u128
    ensures { IsFloor (a.num * k) a.den result }
{
    u128::from(a.num) * u128::from(k) / u128::from(a.den)
}

/// The floor of k times the exact distance of two instants, of which `from` is not after `to`.
pub fn floor_between(from: Ratio, to: Ratio, k: u32) -> u128
    requires order { AtMost from to }
    requires from { from.num < second_limit * from.den }
    requires to { to.num < second_limit * to.den }
    requires from_grain { from.den < 2 ^ 40 }
    requires to_grain { to.den < 2 ^ 40 }
    ensures { IsFloor ((to.num * from.den - from.num * to.den) * k) (from.den * to.den) result }
{
    let distance = u128::from(to.num) * u128::from(from.den)
        - u128::from(from.num) * u128::from(to.den);
    floor_of_product(
        distance,
        u128::from(from.den) * u128::from(to.den),
        u128::from(k),
    )
}

/// `den * value`, which counts the value in units of `1/den`. None comes exactly where this is not
/// whole or does not fit 64 bits.
pub fn on_grid(value: Ratio, den: u64) -> Option<u64>
    requires { 0 < den }
    ensures units { IfSome result (λ n. n * value.den ≡ den * value.num) }
    ensures none { IsNone result ↔ ((n : ℕ) → n * value.den ≡ den * value.num → 2 ^ 64 ≤ n) }
{
    let product = u128::from(den) * u128::from(value.num);
    if product % u128::from(value.den) != 0 {
        return None;
    }
    u64::try_from(product / u128::from(value.den)).ok()
}
