ghost use Rattle.std.specs.Prelude.{◌≡◌, ◌*◌, ◌<◌, IsTrue};
ghost use Rattle.std.specs.Int.{IsGcd};

/// Both parts without the twos that they share.
pub(crate) fn without_twos(num: u64, den: u64) -> (u64, u64)
    requires { 0 < den }
    ensures same { result.0 * den ≡ num * result.1 }
    ensures positive { 0 < result.1 }
{
    let twos = num.trailing_zeros().min(den.trailing_zeros());
    (num >> twos, den >> twos)
}

/// Both parts without the fives that they share.
pub(crate) fn without_fives(num: u64, den: u64) -> (u64, u64)
    requires { 0 < den }
    ensures same { result.0 * den ≡ num * result.1 }
    ensures positive { 0 < result.1 }
{
    let mut top = num;
    let mut under = den;
    while under % 5 == 0 && top % 5 == 0 {
        top /= 5;
        under /= 5;
    }
    (top, under)
}

/// Whether twos and fives alone, which `num` lacks, make up `den`: then the two have no common divisor.
pub(crate) fn is_apart(num: u64, den: u64) -> bool
    requires { 0 < den }
    ensures { IsTrue result → IsGcd num den 1 }
{
    let odd = without_other_twos(num, den);
    let rest = without_other_fives(num, odd);
    rest == 1
}

/// The denominator without its twos, unless `num` has one.
fn without_other_twos(num: u64, den: u64) -> u64
    requires { 0 < den }
    ensures positive { 0 < result }
    ensures apart { IsGcd num result 1 → IsGcd num den 1 }
{
    if num % 2 == 0 {
        return den;
    }
    den >> den.trailing_zeros()
}

/// The denominator without its fives, unless `num` has one.
fn without_other_fives(num: u64, den: u64) -> u64
    requires { 0 < den }
    ensures { IsGcd num result 1 → IsGcd num den 1 }
{
    if num % 5 == 0 {
        return den;
    }
    let mut rest = den;
    while rest % 5 == 0 {
        rest /= 5;
    }
    rest
}
