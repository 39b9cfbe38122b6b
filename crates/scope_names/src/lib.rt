//! What names stand for in the class where they are written, and the first unknown name.
#![tactic(auto)]

mod scopes;
mod unknown;
mod written;

pub use scopes::Scopes;
pub use unknown::unknown_name;
pub use written::names_in;
