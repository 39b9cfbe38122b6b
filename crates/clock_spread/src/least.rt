ghost use Rattle.std.specs.Prelude.{◌≡◌};
ghost use Rattle.clock_spread.specs.Least.{lesser_of};

/// The lesser of the least number so far and one more, which is left out where it does not count.
pub fn lesser(least: Option<u32>, number: u32, counts: bool) -> Option<u32>
    ensures { result ≡ lesser_of least number counts }
{
    if !counts {
        return least;
    }
    match least {
        Some(other) => Some(other.min(number)),
        None => Some(number),
    }
}
