//! The numbers of the names of a model.
ghost use Rattle.std.specs.Prelude.{◌≡◌, ◌++◌, IfOk, OnOk, List, ℕ, flat_map, map};
ghost use Rattle.mo_parser.specs.declared.tree.ClassDef.{ClassDef as Class};
ghost use Rattle.class_scopes.specs.Tables.{IsTableOf};
ghost use Rattle.flat_instances.specs.Kept as kept;
ghost use Rattle.instance_sizes.specs.Counts as counts;
ghost use Rattle.instance_sizes.specs.private.Measures as measures;

use class_scopes::Table;
use flat_instances::Item;
use item_sizes::is_fixed;
use std::alloc::{AllocError, Global};
use sync_values::Text;

/// Adds the flat name of an item, if it is a variable and no parameter or constant.
fn add_name(alloc: Global, item: &Item<'_>, found: &mut Vec<Text>) -> Result<(), AllocError>
    ensures { OnOk result (found.new.items ≡ found.old.items ++ measures.free_name item.now) }
{
    if let Item::Declared(variable) = item {
        if !is_fixed(variable.element.variability) {
            let name = Text::from_bytes(alloc, variable.name.as_bytes())?;
            found.push(name)?;
        }
    }
    Ok(())
}

/// The flat names of the variables among items but parameters and constants, in flat order.
pub fn free_names(alloc: Global, items: &[Item<'_>]) -> Result<Vec<Text>, AllocError>
    ensures { IfOk result (λ found. (text : List ℕ) (classes : List Class) → found.items ≡ map (λ v. v.name) (counts.named text classes (map (kept.seen text classes) items.now))) }
{
    let mut found = Vec::new(alloc);
    for item in items {
        add_name(alloc, item, &mut found)?;
    }
    Ok(found)
}

/// The table of names.
pub fn table_of_names(alloc: Global, names: &[Text]) -> Result<Table, AllocError>
    ensures { IfOk result (λ table. IsTableOf names.now table) }
{
    let mut table = Table::new(alloc);
    for (number, name) in names.iter().enumerate() {
        table.declare(alloc, name.as_bytes(), number)?;
    }
    Ok(table)
}
