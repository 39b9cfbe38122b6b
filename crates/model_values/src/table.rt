//! The numbers of the parameters of a model.
ghost use Rattle.std.specs.Prelude.{◌≡◌, ◌++◌, IfOk, OnOk, List, ℕ, flat_map, map};
ghost use Rattle.mo_parser.specs.declared.tree.ClassDef.{ClassDef as Class};
ghost use Rattle.class_scopes.specs.Tables.{IsTableOf};
ghost use Rattle.flat_instances.specs.Instances as instances;
ghost use Rattle.flat_instances.specs.Kept as kept;
ghost use Rattle.parameter_values.specs.Slots as slots;
ghost use Rattle.model_values.specs.private.ItemNeeds as parts;

use crate::given::is_fixed;
use class_scopes::Table;
use flat_instances::Item;
use std::alloc::{AllocError, Global};
use sync_values::Text;

/// Adds the flat name of an item, if it is a parameter or constant.
fn add_name(alloc: Global, item: &Item<'_>, found: &mut Vec<Text>) -> Result<(), AllocError>
    ensures { OnOk result (found.new.items ≡ found.old.items ++ parts.names_in item.now) }
{
    if let Item::Declared(variable) = item {
        if is_fixed(variable.element.variability) {
            let name = Text::from_bytes(alloc, variable.name.as_bytes())?;
            found.push(name)?;
        }
    }
    Ok(())
}

/// The flat names of the parameters and constants, in flat order.
fn parameter_names(alloc: Global, items: &[Item<'_>]) -> Result<Vec<Text>, AllocError>
    ensures { IfOk result (λ found. found.items ≡ flat_map parts.names_in items.now) }
{
    let mut found = Vec::new(alloc);
    for item in items {
        add_name(alloc, item, &mut found)?;
    }
    Ok(found)
}

/// The table of names.
fn table_of_names(alloc: Global, names: &[Text]) -> Result<Table, AllocError>
    ensures { IfOk result (λ table. IsTableOf names.now table) }
{
    let mut table = Table::new(alloc);
    for (number, name) in names.iter().enumerate() {
        table.declare(alloc, name.as_bytes(), number)?;
    }
    Ok(table)
}

/// The numbers of the parameters and constants of a model in flat order, by their flat names. Memory that is refused is the only
/// error.
pub fn parameter_table(alloc: Global, items: &[Item<'_>]) -> Result<Table, AllocError>
    ensures { IfOk result (λ table. (text : List ℕ) (classes : List Class) → slots.IsTableOfParameters (instances.variables text classes (map (kept.seen text classes) items.now)) table) }
{
    let names = parameter_names(alloc, items)?;
    let table = table_of_names(alloc, names.as_slice())?;
    Ok(table)
}
