use crate::token::Sym;

/// What the bytes at a place of a text are, before the limits of names and numbers are asked.
#[derive(Clone, Copy, PartialEq, Eq)]
pub enum Piece {
    /// Spaces, tabs and line ends.
    Separator,
    /// A comment with its end.
    Comment,
    /// A comment or Text that has begun and does not end.
    Unended,
    /// A name or a keyword.
    Word,
    Integer,
    Real,
    Text,
    Symbol(Sym),
}
