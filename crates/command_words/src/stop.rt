ghost use Rattle.std.specs.Prelude.{◌↔◌, ◌*◌, ◌<◌, IsTrue, MatchOption};
ghost use Rattle.rational_time.specs.declared.ratio.Ratio.{Ratio};
ghost use Rattle.rational_time.specs.Fraction.{second_limit};
ghost use Rattle.command_words.specs.Choice.{IsStop};

use rational_time::{Ratio, read};

/// No stop reaches so many seconds.
const STOP_LIMIT: u128 = 1_048_576;

/// The stop that a text writes, below 2^20 seconds.
pub fn read_stop(text: &[u8]) -> Option<Ratio>
    ensures { MatchOption result ((stop : Ratio) → IsStop text.now stop → ⊥) (IsStop text.now) }
{
    match read(text) {
        Ok(stop) => { if is_early(stop) { Some(stop) } else { None } }
        Err(_) => None,
    }
}

/// Whether a stop is below 2^20 seconds.
fn is_early(stop: Ratio) -> bool
    ensures { IsTrue result ↔ (stop.num < second_limit * stop.den) }
{
    u128::from(stop.num()) < u128::from(stop.den()) * STOP_LIMIT
}
