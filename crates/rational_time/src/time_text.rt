ghost use Rattle.std.specs.Prelude.{◌≡◌, ℕ, ◌+◌, ◌*◌, ◌<◌, ◌≤◌, ◌^◌, ◌↔◌, ◌++◌, List, Err, length, IfOk, IfSome, IsNone, MatchOption};
ghost use Rattle.std.specs.Str.Parse.{AllDigits, digits_value};
ghost use Rattle.rational_time.specs.Fraction.{Exceeds, IsFraction};
ghost use Rattle.rational_time.specs.TimeText.{IsNumeral, WritesTime};
ghost use Rattle.rational_time.specs.private.Front.{Begins};

use crate::fraction::reduced;
use crate::ratio::Ratio;
use std::error::Error;
use std::fmt;

/// Why a text gives no time.
#[derive(Clone, Copy, Debug, PartialEq, Eq)]
pub enum RatioFault {
    /// The text is none of `n`, `n/d` and `n.f`.
    Malformed,
    /// In lowest terms the numerator is 2^60 or more or the denominator 2^32 or more.
    TooFine,
}

impl fmt::Display for RatioFault {
    fn fmt<W: fmt::Write>(&self, f: &mut fmt::Formatter<W>) -> fmt::Result {
        match self {
            RatioFault::Malformed => write!(f, "not a time"),
            RatioFault::TooFine => write!(f, "a time with too large a part in lowest terms"),
        }
    }
}

impl Error for RatioFault {}

/// The time that a text writes: `n`, `n/d` or `n.f`, where n and d are 1 to 18 decimal digits, d is
/// not zero, and f is 1 to 9 decimal digits.
///
/// # Errors
///
/// `Malformed` comes exactly where the text is none of these. `TooFine` comes exactly where the
/// numerator in lowest terms is 2^60 or more or the denominator is 2^32 or more.
pub fn read(text: &[u8]) -> Result<Ratio, RatioFault>
    ensures value { IfOk result (λ r. (n : ℕ) × (d : ℕ) × WritesTime text.now n d × IsFraction r n d) }
    ensures malformed { (result ≡ Err RatioFault.Malformed) ↔ ((n d : ℕ) → ¬ (WritesTime text.now n d)) }
    ensures too_fine { (result ≡ Err RatioFault.TooFine) ↔
        ((n : ℕ) × (d : ℕ) × WritesTime text.now n d × Exceeds (2 ^ 60) (2 ^ 32) n d) }
{
    let Some((num, den)) = written(text) else {
        return Err(RatioFault::Malformed);
    };
    fine(num, den).ok_or(RatioFault::TooFine)
}

/// The time `num/den`, unless a part of it in lowest terms reaches its limit.
fn fine(num: u128, den: u128) -> Option<Ratio>
    requires { 0 < den }
    ensures value { IfSome result (λ r. IsFraction r num den) }
    ensures none { IsNone result ↔ Exceeds (2 ^ 60) (2 ^ 32) num den }
{
    let time = reduced(num, den)?;
    if time.num < 1 << 60 && time.den < 1 << 32 {
        Some(time)
    } else {
        None
    }
}

/// The numerator and the denominator that a time text writes, not reduced.
fn written(text: &[u8]) -> Option<(u128, u128)>
    ensures { MatchOption result
        ((n d : ℕ) → ¬ (WritesTime text.now n d))
        (λ r. WritesTime text.now r.0 r.1) }
{
    let (whole, rest) = front_number(text, 18)?;
    let Some((mark, last)) = rest.split_first() else {
        return Some((u128::from(whole), 1));
    };
    match mark {
        b'/' => quotient(whole, last),
        b'.' => decimal(whole, last),
        _ => None,
    }
}

/// The number that the 1 to `most` digits in front of a text write, and what follows them.
fn front_number(text: &[u8], most: usize) -> Option<(u64, &[u8])>
    requires { most ≤ 18 }
    ensures { MatchOption result
        ((value : ℕ) (rest : List ℕ) → ¬ (Begins most text.now value rest))
        (λ r. Begins most text.now r.0 r.1.now) }
{
    let mut value = 0;
    for (at, byte) in text.iter().enumerate() {
        if !byte.is_ascii_digit() {
            if at == 0 {
                return None;
            }
            let (_, rest) = text.split_at(at);
            return Some((value, rest));
        }
        if at == most {
            return None;
        }
        value = value * 10 + u64::from(byte - b'0');
    }
    if text.is_empty() {
        return None;
    }
    let (_, rest) = text.split_at(text.len());
    Some((value, rest))
}

/// The number that 1 to `most` decimal digits write.
fn number(digits: &[u8], most: usize) -> Option<u64>
    requires { most ≤ 18 }
    ensures { MatchOption result
        (¬ (IsNumeral most digits.now))
        (λ n. IsNumeral most digits.now × (n ≡ digits_value 10 digits.now)) }
{
    if digits.is_empty() || digits.len() > most {
        return None;
    }
    let mut value = 0;
    for digit in digits {
        if !digit.is_ascii_digit() {
            return None;
        }
        value = value * 10 + u64::from(digit - b'0');
    }
    Some(value)
}

/// The fraction `whole/under`, where the text after the slash is the numeral of a number above 0.
fn quotient(whole: u64, under: &[u8]) -> Option<(u128, u128)>
    ensures { MatchOption result
        (IsNumeral 18 under.now → digits_value 10 under.now ≡ 0)
        (λ r. IsNumeral 18 under.now × (0 < r.1)
        × (r.0 ≡ whole) × (r.1 ≡ digits_value 10 under.now)) }
{
    let under = number(under, 18)?;
    if under == 0 {
        return None;
    }
    Some((u128::from(whole), u128::from(under)))
}

/// The fraction `whole + f/10^k`, where the text after the point is the k digits of f.
fn decimal(whole: u64, part: &[u8]) -> Option<(u128, u128)>
    ensures { MatchOption result
        (¬ (IsNumeral 9 part.now))
        (λ r. IsNumeral 9 part.now
        × (r.0 ≡ whole * 10 ^ length part.now + digits_value 10 part.now)
        × (r.1 ≡ 10 ^ length part.now)) }
{
    let digits = number(part, 9)?;
    let scale = power_of_ten(part.len());
    let num = u128::from(whole) * u128::from(scale) + u128::from(digits);
    Some((num, u128::from(scale)))
}

/// The power of ten, which stands in a table up to 10^9.
fn power_of_ten(exponent: usize) -> u64
    requires { exponent ≤ 9 }
    ensures { result ≡ 10 ^ exponent }
{
    match exponent {
        0 => 1,
        1 => 10,
        2 => 100,
        3 => 1_000,
        4 => 10_000,
        5 => 100_000,
        6 => 1_000_000,
        7 => 10_000_000,
        8 => 100_000_000,
        _ => 1_000_000_000,
    }
}
