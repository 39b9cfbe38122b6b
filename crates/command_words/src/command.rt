ghost use Rattle.std.specs.Prelude.{◌≡◌};
ghost use Rattle.command_words.specs.Lines.{usage_line};

use rational_time::Ratio;
use std::error::Error;
use std::fmt;

/// What is asked for of a model.
#[derive(Clone, Copy, Debug, PartialEq, Eq)]
pub enum Mode {
    /// The run up to the stop.
    Run,
    /// The text of the flat model.
    Flat,
    /// The text of the clocks.
    Clocks,
    /// What the run of the stress model of so many members, 1 to 1,000, adds up to.
    Stress(u64),
}

/// What a command asks for.
#[derive(Drop)]
pub struct Command<'a> {
    /// The name of the file of the model; in the mode of the stress model no file, but its number of members.
    pub model: &'a str,
    /// The stop in seconds, below 2^20.
    pub stop: Ratio,
    /// The name of the file of the inputs.
    pub table: Option<&'a str>,
    /// The name of the class; with none it is the last class of the file.
    pub class: Option<&'a str>,
    /// How many workers step the partitions, from 1 to 64.
    pub workers: u64,
    /// What is asked for of the model.
    pub mode: Mode,
}

/// Why words are no command: the first check that fails, in this order.
#[derive(Clone, Copy, Debug, PartialEq, Eq)]
pub enum UsageFault {
    /// The words are not those of the command, or ask for help.
    Words,
    /// The mode is none of the modes.
    Mode,
    /// The stop is no time, or is not below 2^20 seconds.
    Stop,
    /// The workers are no number from 1 to 64 of at most 9 digits.
    Workers,
    /// The mode is that of the stress model, and the model is no number from 1 to 1,000 of at most 4 digits.
    Model,
}

impl UsageFault {
    /// The usage line, with its line end.
    pub fn line(self) -> &'static str
        ensures { result.now ≡ usage_line self }
    {
        match self {
            UsageFault::Words => "usage: words\n",
            UsageFault::Mode => "usage: --mode\n",
            UsageFault::Stop => "usage: --stop\n",
            UsageFault::Workers => "usage: --workers\n",
            UsageFault::Model => "usage: MODEL\n",
        }
    }
}

/// Why no command is read.
#[derive(Clone, Copy, Debug, Drop, PartialEq, Eq)]
pub enum WordsEnd {
    Usage(UsageFault),
    NoMemory,
}

impl fmt::Display for WordsEnd {
    fn fmt<W: fmt::Write>(&self, f: &mut fmt::Formatter<W>) -> fmt::Result {
        match self {
            WordsEnd::Usage(fault) => write!(f, "no command: {fault:?}"),
            WordsEnd::NoMemory => write!(f, "no memory"),
        }
    }
}

impl Error for WordsEnd {}
