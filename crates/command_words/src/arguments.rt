ghost use Rattle.std.specs.Prelude.{◌≡◌, ◌*◌, ◌≢◌, IfErr, IfOk, false, map, string_bytes};
ghost use Rattle.command_words.specs.private.Given.{IsFound, IsUntaken, given_texts};
ghost use Rattle.command_words.specs.Words.{AreAccepted, bare, clockrun, mode_rule, model_rule, option_rule, stop_rule, texts_of, workers_rule};
ghost use Rattle.clap.specs.Words.{app_of, found_of, rule_of};

use clap::error::ErrorKind;
use clap::{Arg, ArgMatches, Command};
use std::alloc::{AllocError, Global};

/// The values of the arguments, as texts.
#[derive(Drop)]
pub struct Given<'a> {
    pub model: &'a str,
    pub stop: &'a str,
    pub table: Option<&'a str>,
    pub class: Option<&'a str>,
    pub workers: &'a str,
    pub mode: &'a str,
}

/// Why the arguments have no values.
#[derive(Clone, Copy)]
pub enum GivenEnd {
    Untaken,
    NoMemory,
}

/// The word MODEL.
fn model_arg<'a>(alloc: Global) -> Arg<'a>
    ensures rule { rule_of result ≡ model_rule }
    ensures local { result.global ≡ false }
{
    Arg::new(alloc, "MODEL").required(true)
}

/// An option of one value.
fn option_arg<'a>(alloc: Global, name: &'a str) -> Arg<'a>
    ensures rule { rule_of result ≡ option_rule name.entry.now }
    ensures local { result.global ≡ false }
{
    Arg::new(alloc, name).long(name)
}

fn stop_arg<'a>(alloc: Global) -> Arg<'a>
    ensures rule { rule_of result ≡ stop_rule }
    ensures local { result.global ≡ false }
{
    Arg::new(alloc, "stop").long("stop").required(true)
}

fn workers_arg<'a>(alloc: Global) -> Arg<'a>
    ensures rule { rule_of result ≡ workers_rule }
    ensures local { result.global ≡ false }
{
    Arg::new(alloc, "workers")
        .long("workers")
        .default_value("1")
}

fn mode_arg<'a>(alloc: Global) -> Arg<'a>
    ensures rule { rule_of result ≡ mode_rule }
    ensures local { result.global ≡ false }
{
    Arg::new(alloc, "mode").long("mode").default_value("run")
}

/// The command before it has arguments.
fn bare_command<'a>(alloc: Global) -> Command<'a>
    ensures { app_of result ≡ bare }
{
    Command::new(alloc, "clockrun").no_binary_name(true)
}

/// The one command of the program.
fn make_command<'a>(alloc: Global) -> Result<Command<'a>, AllocError>
    ensures { IfOk result (λ c. app_of c ≡ clockrun) }
{
    bare_command(alloc)
        .arg(model_arg(alloc))?
        .arg(stop_arg(alloc))?
        .arg(option_arg(alloc, "table"))?
        .arg(option_arg(alloc, "class"))?
        .arg(workers_arg(alloc))?
        .arg(mode_arg(alloc))
}

/// The values that were found.
fn from_matches<'a>(matches: &ArgMatches<'a>) -> Given<'a>
    ensures { IsFound (found_of matches.now) result }
{
    Given {
        model: matches.get_str("MODEL").unwrap_or(""),
        stop: matches.get_str("stop").unwrap_or(""),
        table: matches.get_str("table"),
        class: matches.get_str("class"),
        workers: matches.get_str("workers").unwrap_or(""),
        mode: matches.get_str("mode").unwrap_or(""),
    }
}

/// What an error of the parse comes to.
fn end_of(kind: ErrorKind) -> GivenEnd
    ensures { result ≡ GivenEnd.Untaken → kind ≢ ErrorKind.OutOfMemory }
{
    match kind {
        ErrorKind::OutOfMemory => GivenEnd::NoMemory,
        _ => GivenEnd::Untaken,
    }
}

/// The values of the arguments. `Untaken` comes only where the words are not taken.
pub fn read_given<'a>(alloc: Global, words: &'a [String]) -> Result<Given<'a>, GivenEnd>
    ensures given { IfOk result (λ g. AreAccepted (map string_bytes words.entry.now)
        × (given_texts g ≡ texts_of (map string_bytes words.entry.now))) }
    ensures untaken { IfErr result (IsUntaken (map string_bytes words.entry.now)) }
{
    let Ok(command) = make_command(alloc) else {
        return Err(GivenEnd::NoMemory);
    };
    match command.try_get_matches_from(words) {
        Ok(matches) => Ok(from_matches(&matches)),
        Err(error) => Err(end_of(error.kind())),
    }
}
