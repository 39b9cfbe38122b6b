ghost use Rattle.std.specs.Prelude.{◌≡◌, ◌<◌};
ghost use Rattle.std.specs.Int.{IsGcd};

use std::fmt;

/// A fraction not below 0 in lowest terms, as an instant in seconds, a period or a distance in time.
#[derive(Clone, Copy, Debug, PartialEq, Eq)]
pub struct Ratio {
    pub(crate) num: u64,
    pub(crate) den: u64,
    pub ghost positive: { 0 < den },
    pub ghost lowest: { ∥ IsGcd num den 1 ∥₁ },
}

impl Ratio {
    /// The numerator in lowest terms.
    pub fn num(self) -> u64
        ensures { result ≡ self.num }
    {
        self.num
    }

    /// The denominator in lowest terms, at least 1.
    pub fn den(self) -> u64
        ensures { result ≡ self.den }
    {
        self.den
    }
}

/// Writes `n` where the denominator is 1, else `n/d`.
impl fmt::Display for Ratio {
    ghost use Rattle.rational_time.specs.Fraction.{instant_text};
    ghost use Rattle.std.specs.Prelude.{Some};

    ghost output = { λ r. Some (instant_text r) };

    fn fmt<W: fmt::Write>(&self, f: &mut fmt::Formatter<W>) -> fmt::Result {
        let num = self.num;
        let den = self.den;
        if den == 1 {
            write!(f, "{num}")
        } else {
            write!(f, "{num}/{den}")
        }
    }
}
