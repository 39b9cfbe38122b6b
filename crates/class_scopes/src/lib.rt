//! The classes of a file: what type names stand for, the classes that a chosen class is made of, and the first unknown
//! type name or second name.
#![tactic(auto)]

mod end;
mod file;
mod name_rules;
mod named;
mod reach;
mod spellings;
mod table;
mod type_name;

pub use end::{NameCode, RuleEnd};
pub use file::{File, Opened};
pub use name_rules::{declared_in, names, place_of};
pub use named::Named;
pub use reach::reached;
pub use spellings::is_time;
pub use table::{Declared, Table, lesser, table_of};
pub use type_name::TypeName;
