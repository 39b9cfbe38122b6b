//! How much the equations of the classes of a file count in a model: equations, source tokens, and whether there is anything.
#![tactic(auto)]

mod equations;
mod owning;
mod tokens;

pub use equations::equation_counts;
pub use owning::owners;
pub use tokens::{expr_tokens, token_counts};
