//! The table of the inputs: its file as bytes, and the table or the first rule that it breaks.
#![tactic(auto)]

mod ends;
mod fields;
mod front;
mod header;
mod law;
mod plain;
mod quick;
mod read;
mod records;
mod rows;

pub use ends::{TableCode, TableEnd};
pub use law::table_law;
pub use read::{no_table, read_table};
