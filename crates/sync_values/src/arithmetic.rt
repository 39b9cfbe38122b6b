ghost use Rattle.std.specs.Prelude.{◌≡◌, ◌+ℤ◌, ◌-ℤ◌, ◌*ℤ◌, neg_ℤ};
ghost use Rattle.sync_values.specs.Arithmetic.{fitted, over, magnitude, exact_div, exact_rem, exact_modulo, unlike, lesser, greater};

use crate::value::Fail;

/// The exact sum. `TooLarge` comes exactly where it does not fit 64 bits.
pub fn add(a: i64, b: i64) -> Result<i64, Fail>
    ensures { result ≡ fitted (a +ℤ b) }
{
    a.checked_add(b).ok_or(Fail::TooLarge)
}

/// The exact difference. `TooLarge` comes exactly where it does not fit 64 bits.
pub fn sub(a: i64, b: i64) -> Result<i64, Fail>
    ensures { result ≡ fitted (a -ℤ b) }
{
    a.checked_sub(b).ok_or(Fail::TooLarge)
}

/// The exact product. `TooLarge` comes exactly where it does not fit 64 bits.
pub fn mul(a: i64, b: i64) -> Result<i64, Fail>
    ensures { result ≡ fitted (a *ℤ b) }
{
    a.checked_mul(b).ok_or(Fail::TooLarge)
}

/// The number with the other sign. `TooLarge` comes exactly for -2^63.
pub fn neg(a: i64) -> Result<i64, Fail>
    ensures { result ≡ fitted (neg_ℤ a) }
{
    a.checked_neg().ok_or(Fail::TooLarge)
}

/// The number without its sign. `TooLarge` comes exactly for -2^63.
pub fn abs(a: i64) -> Result<i64, Fail>
    ensures { result ≡ fitted (magnitude a) }
{
    a.checked_abs().ok_or(Fail::TooLarge)
}

/// The quotient rounded towards 0. `Divide` comes exactly where b is 0, and `TooLarge` exactly for -2^63 over -1.
///
/// Source: MLS 3.6, chapter 3, "Event Triggering Mathematical Functions".
pub fn div(a: i64, b: i64) -> Result<i64, Fail>
    ensures { result ≡ over b (exact_div a b) }
{
    if b == 0 {
        return Err(Fail::Divide);
    }
    a.checked_div(b).ok_or(Fail::TooLarge)
}

/// What `div` leaves, `a - div(a, b)*b`, taken exactly. `Divide` comes exactly where b is 0.
///
/// Source: MLS 3.6, chapter 3, "Event Triggering Mathematical Functions".
pub fn rem(a: i64, b: i64) -> Result<i64, Fail>
    ensures { result ≡ over b (exact_rem a b) }
{
    if b == 0 {
        return Err(Fail::Divide);
    }
    Ok(a.wrapping_rem(b))
}

/// Whether one of two numbers is below 0 and the other above.
fn are_unlike(a: i64, b: i64) -> bool
    ensures { result ≡ unlike a b }
{
    a < 0 && 0 < b || 0 < a && b < 0
}

/// The modulus `a - floor(a/b)*b`, which has the sign of b. `Divide` comes exactly where b is 0.
///
/// Source: MLS 3.6, chapter 3, "Event Triggering Mathematical Functions".
pub fn modulo(a: i64, b: i64) -> Result<i64, Fail>
    ensures { result ≡ over b (exact_modulo a b) }
{
    if b == 0 {
        return Err(Fail::Divide);
    }
    let left = a.wrapping_rem(b);
    if are_unlike(left, b) {
        Ok(left + b)
    } else {
        Ok(left)
    }
}

/// The lesser of two numbers.
pub fn least(a: i64, b: i64) -> i64
    ensures { result ≡ lesser a b }
{
    a.min(b)
}

/// The greater of two numbers.
pub fn greatest(a: i64, b: i64) -> i64
    ensures { result ≡ greater a b }
{
    a.max(b)
}
