ghost use Rattle.std.specs.Prelude.{ℕ, MatchOption};
ghost use Rattle.command_words.specs.Choice.{IsMembers};

use crate::workers::number;

/// The number of members of the stress model that a text writes, from 1 to 1,000.
pub fn read_members(text: &[u8]) -> Option<u64>
    ensures { MatchOption result ((n : ℕ) → IsMembers text.now n → ⊥) (IsMembers text.now) }
{
    if text.len() > 4 {
        return None;
    }
    let members = number(text)?;
    if 1 <= members && members <= 1000 {
        Some(members)
    } else {
        None
    }
}
