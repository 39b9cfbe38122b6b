ghost use Rattle.std.specs.Prelude.{ℕ, ◌<◌, ◌≤◌, ◌^◌, ◌↔◌, IfSome, IsNone};
ghost use Rattle.std.specs.Int.{IsGcd};
ghost use Rattle.rational_time.specs.Multiple.{IsLcm};

/// The greatest common divisor, which is 0 for 0 and 0.
pub fn gcd(a: u64, b: u64) -> u64
    ensures { IsGcd a b result }
{
    let mut divisor = a;
    let mut rest = b;
    while rest != 0 {
        let next = divisor % rest;
        divisor = rest;
        rest = next;
    }
    divisor
}

/// The least common multiple. None comes exactly where it does not fit 64 bits.
pub fn lcm(a: u64, b: u64) -> Option<u64>
    requires first { 0 < a }
    requires second { 0 < b }
    ensures multiple { IfSome result (λ m. IsLcm a b m) }
    ensures none { IsNone result ↔ ((m : ℕ) × IsLcm a b m × (2 ^ 64 ≤ m)) }
{
    let divisor = gcd(a, b);
    (a / divisor).checked_mul(b)
}

/// The greatest common divisor of two wide numbers. Division of 128 bits is slow, so `gcd` stands beside it.
pub(crate) fn wide_gcd(a: u128, b: u128) -> u128
    ensures { IsGcd a b result }
{
    let mut divisor = a;
    let mut rest = b;
    while rest != 0 {
        let next = divisor % rest;
        divisor = rest;
        rest = next;
    }
    divisor
}
