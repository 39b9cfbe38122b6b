ghost use Rattle.std.specs.Prelude.{◌≡◌, ◌*◌, ℕ, MatchOption};
ghost use Rattle.std.specs.Str.Parse.{digits_value};
ghost use Rattle.rational_time.specs.TimeText.{IsNumeral};
ghost use Rattle.command_words.specs.Choice.{IsWorkers};

/// The number of workers that a text writes, from 1 to 64.
pub fn read_workers(text: &[u8]) -> Option<u64>
    ensures { MatchOption result ((n : ℕ) → IsWorkers text.now n → ⊥) (IsWorkers text.now) }
{
    let workers = number(text)?;
    if 1 <= workers && workers <= 64 {
        Some(workers)
    } else {
        None
    }
}

/// The number that 1 to 9 decimal digits write.
pub(crate) fn number(digits: &[u8]) -> Option<u64>
    ensures { MatchOption result
        (IsNumeral 9 digits.now → ⊥)
        (λ n. IsNumeral 9 digits.now × (n ≡ digits_value 10 digits.now)) }
{
    if digits.is_empty() || digits.len() > 9 {
        return None;
    }
    let mut value = 0;
    for digit in digits {
        if !digit.is_ascii_digit() {
            return None;
        }
        value = value * 10 + u64::from(digit - b'0');
    }
    Some(value)
}
