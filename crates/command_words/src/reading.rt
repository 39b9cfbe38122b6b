ghost use Rattle.std.specs.Prelude.{IfErr, IfOk, map, string_bytes};
ghost use Rattle.command_words.specs.Answer.{IsCommand, IsEnd, OneAnswer};
ghost use Rattle.command_words.specs.Choice.{choice_of};

use crate::arguments::{GivenEnd, read_given};
use crate::choose::choose;
use crate::command::{Command, UsageFault, WordsEnd};
use std::alloc::Global;

/// Reads the words after the program's name.
///
/// `Usage` has the first check that fails: the words, the mode, the stop, the workers. `NoMemory` is free.
pub fn read_words<'a>(alloc: Global, words: &'a [String]) -> Result<Command<'a>, WordsEnd>
    ensures command { IfOk result (λ c. IsCommand (map string_bytes words.entry.now) (choice_of c)) }
    ensures usage { IfErr result (IsEnd (map string_bytes words.entry.now)) }
{
    match read_given(alloc, words) {
        Ok(given) => match choose(given) {
            Ok(command) => Ok(command),
            Err(fault) => Err(WordsEnd::Usage(fault)),
        },
        Err(GivenEnd::Untaken) => Err(WordsEnd::Usage(UsageFault::Words)),
        Err(GivenEnd::NoMemory) => Err(WordsEnd::NoMemory),
    }
}

/// Words have one answer: one command, or one usage line.
pub fn one_answer()
    ensures { OneAnswer }
{}
