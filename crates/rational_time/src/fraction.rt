ghost use Rattle.std.specs.Prelude.{◌≡◌, ◌+◌, ◌*◌, ◌<◌, ◌^◌, ◌↔◌, IfSome, IsNone};
ghost use Rattle.std.specs.Ordering.{nat_cmp};
ghost use Rattle.rational_time.specs.Fraction.{DoesNotFit, IsFraction, ArePartsBelow};

use crate::divisor::{gcd, wide_gcd};
use crate::ratio::Ratio;
use crate::tens::{is_apart, without_fives, without_twos};
use std::cmp::Ordering;

/// The fraction `num/den` in lowest terms.
pub fn make(num: u64, den: u64) -> Ratio
    requires { 0 < den }
    ensures { IsFraction result num den }
{
    if den == 1 {
        return Ratio { num, den };
    }
    // Most instants are decimals or have a power of two below, and divisions take long.
    let (half, under) = without_twos(num, den);
    let (top, below) = without_fives(half, under);
    if is_apart(top, below) {
        return Ratio {
            num: top,
            den: below,
        };
    }
    by_divisor(top, below)
}

/// The same by the greatest common divisor.
fn by_divisor(num: u64, den: u64) -> Ratio
    requires { 0 < den }
    ensures { IsFraction result num den }
{
    let divisor = gcd(num, den);
    if divisor == 1 {
        return Ratio { num, den };
    }
    Ratio {
        num: num / divisor,
        den: den / divisor,
    }
}

/// How `a` stands to `b`, exactly.
pub fn compare(a: Ratio, b: Ratio) -> Ordering
    ensures { result ≡ nat_cmp (a.num * b.den) (b.num * a.den) }
{
    let left = u128::from(a.num) * u128::from(b.den);
    let right = u128::from(b.num) * u128::from(a.den);
    left.cmp(&right)
}

/// The fraction `num/den` in lowest terms, and None exactly where a part of it does not fit 64 bits.
pub(crate) fn reduced(num: u128, den: u128) -> Option<Ratio>
    requires { 0 < den }
    ensures value { IfSome result (λ r. IsFraction r num den) }
    ensures none { IsNone result ↔ DoesNotFit num den }
{
    let Ok(short_num) = u64::try_from(num) else {
        return wide_reduced(num, den);
    };
    let Ok(short_den) = u64::try_from(den) else {
        return wide_reduced(num, den);
    };
    Some(make(short_num, short_den))
}

/// The same by arithmetic on 128 bits, which takes longer.
fn wide_reduced(num: u128, den: u128) -> Option<Ratio>
    requires { 0 < den }
    ensures value { IfSome result (λ r. IsFraction r num den) }
    ensures none { IsNone result ↔ DoesNotFit num den }
{
    let divisor = wide_gcd(num, den);
    let num = u64::try_from(num / divisor).ok()?;
    let den = u64::try_from(den / divisor).ok()?;
    Some(Ratio { num, den })
}

/// The exact sum. None comes exactly where a part of it in lowest terms does not fit 64 bits.
pub fn plus(a: Ratio, b: Ratio) -> Option<Ratio>
    requires first { ArePartsBelow (2 ^ 62) a }
    requires second { ArePartsBelow (2 ^ 62) b }
    ensures sum { IfSome result (λ r. IsFraction r (a.num * b.den + b.num * a.den) (a.den * b.den)) }
    ensures none { IsNone result ↔ DoesNotFit (a.num * b.den + b.num * a.den) (a.den * b.den) }
{
    let left = u128::from(a.num) * u128::from(b.den);
    let right = u128::from(b.num) * u128::from(a.den);
    reduced(left + right, u128::from(a.den) * u128::from(b.den))
}

/// The exact product `a * times / over`. None comes exactly where a part of it in lowest terms does
/// not fit 64 bits.
pub fn scaled(a: Ratio, times: u32, over: u32) -> Option<Ratio>
    requires { 0 < over }
    ensures product { IfSome result (λ r. IsFraction r (a.num * times) (a.den * over)) }
    ensures none { IsNone result ↔ DoesNotFit (a.num * times) (a.den * over) }
{
    let num = u128::from(a.num) * u128::from(times);
    let den = u128::from(a.den) * u128::from(over);
    reduced(num, den)
}
