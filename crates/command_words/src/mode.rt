ghost use Rattle.std.specs.Prelude.{◌≡◌, ℕ, MatchOption};
ghost use Rattle.command_words.specs.declared.command.Mode.{Mode};
ghost use Rattle.command_words.specs.Choice.{IsMembers, IsMode, mode_name};
ghost use Rattle.command_words.specs.private.Given.{word_of};

use crate::command::Mode;
use crate::members::read_members;

/// The word of a mode.
#[derive(Clone, Copy)]
pub enum ModeWord {
    Run,
    Flat,
    Clocks,
    Stress,
}

/// The word of a mode that a text is.
pub fn read_word(text: &str) -> Option<ModeWord>
    ensures { MatchOption result ((mode : Mode) → text.now ≡ mode_name mode → ⊥) (λ word. text.now ≡ word_of word) }
{
    match text {
        "run" => Some(ModeWord::Run),
        "flat" => Some(ModeWord::Flat),
        "clocks" => Some(ModeWord::Clocks),
        "stress" => Some(ModeWord::Stress),
        _ => None,
    }
}

/// The mode of a word; beside that of the stress model stands its number of members.
pub fn mode_of(word: ModeWord, model: &str) -> Option<Mode>
    ensures { MatchOption result ((word ≡ ModeWord.Stress) × ((n : ℕ) → IsMembers model.now n → ⊥)) (IsMode (word_of word) model.now) }
{
    match word {
        ModeWord::Run => Some(Mode::Run),
        ModeWord::Flat => Some(Mode::Flat),
        ModeWord::Clocks => Some(Mode::Clocks),
        ModeWord::Stress => {
            let members = read_members(model.as_bytes())?;
            Some(Mode::Stress(members))
        }
    }
}
