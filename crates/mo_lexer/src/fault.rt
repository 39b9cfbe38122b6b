use std::alloc::AllocError;
use std::error::Error;
use std::fmt;

/// Why a text has no tokens.
#[derive(Clone, Copy, Debug, PartialEq, Eq)]
pub enum LexCode {
    /// A byte that begins no token, comment or separator.
    L1,
    /// A comment or Text that does not end.
    L2,
    /// An Integer above 2^63-1.
    L3,
    /// A name of more than 128 bytes.
    L4,
}

/// What `lex` answers in place of tokens.
#[derive(Clone, Copy, Debug, PartialEq, Eq)]
pub enum LexEnd {
    /// The fault of least place; `at` counts the bytes before it.
    Fault { code: LexCode, at: u32 },
    /// Memory was refused.
    NoMemory,
}

impl fmt::Display for LexEnd {
    fn fmt<W: fmt::Write>(&self, f: &mut fmt::Formatter<W>) -> fmt::Result {
        match self {
            LexEnd::Fault { code, at } => write!(f, "{code:?} at byte {at}"),
            LexEnd::NoMemory => write!(f, "no memory"),
        }
    }
}

impl Error for LexEnd {}

impl From<AllocError> for LexEnd {
    ghost use Rattle.std.specs.Prelude.{◌≡◌};
    ghost use Rattle.mo_lexer.specs.declared.fault.LexEnd.TheVariants.{NoMemory};

    ghost from_gives = { λ _ end. end ≡ NoMemory };

    fn from(_refused: AllocError) -> LexEnd {
        LexEnd::NoMemory
    }
}
