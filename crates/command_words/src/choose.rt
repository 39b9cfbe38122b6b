ghost use Rattle.std.specs.Prelude.{IfErr, IfOk};
ghost use Rattle.command_words.specs.Choice.{IsChoice, IsMisfit, choice_of};
ghost use Rattle.command_words.specs.private.Given.{given_texts};

use crate::arguments::Given;
use crate::command::{Command, UsageFault};
use crate::mode::{mode_of, read_word};
use crate::stop::read_stop;
use crate::workers::read_workers;

/// What the values of the arguments mean.
pub fn choose<'a>(given: Given<'a>) -> Result<Command<'a>, UsageFault>
    ensures choice { IfOk result (λ c. IsChoice (given_texts given.entry) (choice_of c)) }
    ensures misfit { IfErr result (IsMisfit (given_texts given.entry)) }
{
    let Some(word) = read_word(given.mode) else {
        return Err(UsageFault::Mode);
    };
    let Some(stop) = read_stop(given.stop.as_bytes()) else {
        return Err(UsageFault::Stop);
    };
    let Some(workers) = read_workers(given.workers.as_bytes()) else {
        return Err(UsageFault::Workers);
    };
    let Some(mode) = mode_of(word, given.model) else {
        return Err(UsageFault::Model);
    };
    Ok(Command {
        model: given.model,
        stop,
        table: given.table,
        class: given.class,
        workers,
        mode,
    })
}
