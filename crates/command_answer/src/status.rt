ghost use Rattle.std.specs.Prelude.{◌≡◌};
ghost use Rattle.command_answer.specs.Statuses.{exit_number};

/// How a call of `clocked_run` ended. The number of each is the exit status of the program.
#[derive(Clone, Copy, Debug, PartialEq, Eq)]
pub enum Status {
    /// The run reached the stop.
    Done,
    /// A rule of the profile is broken; one refusal line is on err.
    Refused,
    /// An arithmetic fault ended the run; out has the rows before it, and err the fault line.
    Faulted,
    /// The words are no command; one usage line is on err.
    Usage,
    /// The model or the table could not be read; the line on err names the file.
    ReadFault,
    /// A line could not be written.
    WriteFault,
    /// Memory was refused before the run began; out is unchanged.
    NoMemory,
}

impl Status {
    /// The exit status of the program.
    pub fn number(self) -> u8
        ensures { result ≡ exit_number self }
    {
        match self {
            Status::Done => 0,
            Status::Refused => 1,
            Status::Faulted => 2,
            Status::Usage => 3,
            Status::ReadFault => 4,
            Status::WriteFault => 5,
            Status::NoMemory => 6,
        }
    }
}
