ghost use Rattle.std.specs.Prelude.{IfErr, IfOk, map, string_bytes};
ghost use Rattle.command_words.specs.Choice.{choice_of};
ghost use Rattle.command_answer.specs.Layers.{asked};
ghost use Rattle.command_stages.specs.Ends.{Halts, IsPrintable};

use crate::end::End;
use command_words::{Command, WordsEnd, read_words};
use std::alloc::Global;

/// What the words after the program's name ask for.
///
/// # Errors
///
/// The first check of the words that fails, or want of memory.
///
/// Source: this project's own.
#[tactic(auto, using(crate::proofs::Layered::asked_makes, crate::proofs::Layered::asked_halts))]
pub fn command_of<'a>(alloc: Global, words: &'a [String]) -> Result<Command<'a>, End<'a>>
    ensures made { IfOk result (λ c. (asked (map string_bytes words.entry.now)).makes (choice_of c)) }
    ensures ended { IfErr result (Halts (asked (map string_bytes words.entry.now))) }
    ensures short { IfErr result IsPrintable }
{
    match read_words(alloc, words) {
        Ok(command) => Ok(command),
        Err(WordsEnd::Usage(fault)) => Err(End::Usage(fault)),
        Err(WordsEnd::NoMemory) => Err(End::NoMemory),
    }
}
