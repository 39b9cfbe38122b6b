use command_words::UsageFault;
use flat_model::Place;
use std::error::Error;
use std::fmt;
use trace_print::Code;

/// What ends a command early.
#[derive(Debug, Drop)]
pub enum End<'a> {
    /// The words are no command.
    Usage(UsageFault),
    /// A rule is broken at a place.
    Refused { code: Code, place: Place },
    /// The file of this name could not be read.
    ReadFault(&'a str),
    /// Memory was refused.
    NoMemory,
}

impl<'a> fmt::Display for End<'a> {
    fn fmt<W: fmt::Write>(&self, f: &mut fmt::Formatter<W>) -> fmt::Result {
        match self {
            End::Usage(fault) => write!(f, "no command: {fault:?}"),
            End::Refused { code, place } => write!(f, "refused {code:?} at {place:?}"),
            End::ReadFault(name) => write!(f, "{name} could not be read"),
            End::NoMemory => write!(f, "no memory"),
        }
    }
}

impl<'a> Error for End<'a> {}
