ghost use Rattle.std.specs.Prelude.{◌≤◌, IfErr, IfOk, map, string_bytes};
ghost use Rattle.flat_model.specs.Models.{IsModel};
ghost use Rattle.flat_model.specs.Tables.{IsTime};
ghost use Rattle.command_words.specs.Choice.{choice_of};
ghost use Rattle.command_answer.specs.Actions.{actions, setting_of};
ghost use Rattle.command_answer.specs.Calls.{Outside, reads_in};
ghost use Rattle.command_stages.specs.Ends.{Halts, IsPrintable};
ghost use Rattle.command_stages.specs.Reading.{IsStepOf, KeepsShelf};
ghost use Rattle.clocked_run.specs.private.Tasks.{CanRun, Ends, CanDo, Plans};

use command_model::model_of;
use command_stages::{
    End, clocking_of, command_of, order_of, plan_of, print_clocks, print_flat, table_of,
};
use command_words::{Command, Mode};
use flat_model::FlatModel;
use outside_io::Shelf;
use run_trace::PlannedRun;
use std::alloc::Global;

/// What is left to do of a command once no rule is broken.
#[derive(Drop)]
pub enum Task {
    /// To print the text of a mode.
    Print(Vec<u8>),
    /// To run a model and print its trace.
    Run(PlannedRun),
    /// To run the stress model of so many members and print what its rows add up to.
    Stress(u64, PlannedRun),
}

/// What is left to do of the command of some words, in its mode.
///
/// # Errors
///
/// Words that are no command, a fault of reading, the first rule that is broken in the order of the stages, or want of
/// memory.
///
/// Source: this project's own.
pub fn task_of<'a, S: Shelf>(
    alloc: Global,
    words: &'a [String],
    shelf: &mut S,
) -> Result<Task, End<'a>>
    ensures made { (o : Outside) → IsStepOf o (S.held shelf.old) (S.gives_empty shelf.old) (S.faults shelf.old) (S.faults shelf.new) →
        IfOk result (Ends (actions (reads_in o) (map string_bytes words.entry.now))) }
    ensures can { IfOk result CanDo }
    ensures ended { (o : Outside) → IsStepOf o (S.held shelf.old) (S.gives_empty shelf.old) (S.faults shelf.old) (S.faults shelf.new) →
        IfErr result (Halts (actions (reads_in o) (map string_bytes words.entry.now))) }
    ensures short { IfErr result IsPrintable }
    ensures shelf { KeepsShelf (S.held shelf.old) (S.held shelf.new) (S.gives_empty shelf.old) (S.gives_empty shelf.new) (S.faults shelf.old) (S.faults shelf.new) }
{
    let command = command_of(alloc, words)?;
    let flat = model_of(alloc, shelf, &command)?;
    match command.mode {
        Mode::Flat => {
            let text = print_flat(alloc, &flat)?;
            Ok(Task::Print(text))
        }
        Mode::Clocks => {
            let text = print_clocks(alloc, &flat)?;
            Ok(Task::Print(text))
        }
        Mode::Run => {
            let run = planned(alloc, shelf, &command, flat)?;
            Ok(Task::Run(run))
        }
        Mode::Stress(members) => {
            let run = planned(alloc, shelf, &command, flat)?;
            Ok(Task::Stress(members, run))
        }
    }
}

/// All that the run of a model is made of.
fn planned<'a, S: Shelf>(
    alloc: Global,
    shelf: &mut S,
    command: &Command<'a>,
    flat: FlatModel,
) -> Result<PlannedRun, End<'a>>
    requires model { IsModel flat }
    requires stop { IsTime command.now.stop }
    requires workers { (1 ≤ command.now.workers) × (command.now.workers ≤ 64) }
    ensures made { (o : Outside) → IsStepOf o (S.held shelf.old) (S.gives_empty shelf.old) (S.faults shelf.old) (S.faults shelf.new) →
        IfOk result (Plans (setting_of (reads_in o) (choice_of command.now) flat)) }
    ensures can { IfOk result CanRun }
    ensures ended { (o : Outside) → IsStepOf o (S.held shelf.old) (S.gives_empty shelf.old) (S.faults shelf.old) (S.faults shelf.new) →
        IfErr result (Halts (setting_of (reads_in o) (choice_of command.now) flat)) }
    ensures short { IfErr result IsPrintable }
    ensures shelf { KeepsShelf (S.held shelf.old) (S.held shelf.new) (S.gives_empty shelf.old) (S.gives_empty shelf.new) (S.faults shelf.old) (S.faults shelf.new) }
{
    let clocking = clocking_of(alloc, &flat)?;
    let order = order_of(alloc, &flat, &clocking)?;
    let table = table_of(alloc, shelf, &flat, command.table)?;
    let plan = plan_of(alloc, &flat, &clocking, &table, command.stop)?;
    Ok(PlannedRun {
        flat,
        clocking,
        order,
        table,
        plan,
        workers: command.workers as u32,
    })
}
