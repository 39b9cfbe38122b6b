//! Tables of names.
ghost use Rattle.std.specs.Prelude.{◌≡◌, ◌≢◌, ◌↔◌, ◌&&◌, AllPairs, IfOk, IsTrue, map};
ghost use Rattle.class_scopes.specs.Tables.{IsTableOf};

use class_scopes::Table;
use flat_model::FlatName;
use std::alloc::{AllocError, Global};
use sync_values::Text;

/// The table of some texts.
pub fn text_table(alloc: Global, names: &[Text]) -> Result<Table, AllocError>
    ensures { IfOk result (λ table. IsTableOf names.now table) }
{
    let mut table = Table::new(alloc);
    for (number, name) in names.iter().enumerate() {
        table.declare(alloc, name.as_bytes(), number)?;
    }
    Ok(table)
}

/// The numbers of names by their texts, and whether no two of them have one text.
#[derive(Drop)]
pub struct NameTable {
    pub table: Table,
    pub apart: bool,
}

/// Whether both are so.
fn both(one: bool, other: bool) -> bool
    ensures { result ≡ (one && other) }
{
    one && other
}

/// The numbers of the names of a flat model, by their texts. Memory that is refused is the only error.
pub fn name_table(alloc: Global, names: &[FlatName]) -> Result<NameTable, AllocError>
    ensures table { IfOk result (λ found. IsTableOf (map (λ name. name.text) names.now) found.table) }
    ensures apart { IfOk result (λ found. IsTrue found.apart ↔ AllPairs (λ a b. a.text ≢ b.text) names.now) }
{
    let mut table = Table::new(alloc);
    let mut apart = true;
    for (number, name) in names.iter().enumerate() {
        let added = table.declare(alloc, name.text.as_bytes(), number)?;
        apart = both(apart, added);
    }
    Ok(NameTable { table, apart })
}
