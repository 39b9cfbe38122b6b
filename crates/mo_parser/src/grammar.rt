//! The grammar, read one token ahead. Above each function stands its line of the grammar.
//!
//! Each loop is a `for` over as many turns as tokens are left, since each turn takes one: a `while` would need a measure.
//! Where a `?` may return, what is alive is dropped, and the drop of a tree is written out there, while that of a list or a
//! box is one call. So a tree that is read goes into its list or box before the next `?`, `end.and(Ok(tree))` and
//! `end.map(|end| ..)` stand for `end?` where a tree is alive, and of two boxes the first keeps its `?` for the end.

mod chains;
mod classes;
mod comments;
mod elements;
mod equations;
mod expressions;
mod kinds;
mod modifications;
mod names;
mod parts;
mod reader;
mod tokens;

pub use kinds::{is_end, is_foreign};
pub use reader::Reader;
pub use tokens::{Halt, Tokens};
