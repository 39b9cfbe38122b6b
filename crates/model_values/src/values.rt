//! The values of a model.
ghost use Rattle.std.specs.Prelude.{◌≡◌, IfOk, map};
ghost use Rattle.flat_instances.specs.Instances as instances;
ghost use Rattle.flat_instances.specs.Kept as kept;
ghost use Rattle.parameter_values.specs.Values.{AreValues};
ghost use Rattle.parameter_values.specs.Slots as slots;
ghost use Rattle.value_rules.specs.Faults as faults;

use crate::model::{needs, parameters};
use crate::table::parameter_table;
use class_scopes::{File, Table};
use flat_instances::Item;
use parameter_values::parameter_values;
use std::alloc::{AllocError, Global};
use sync_values::Value;
use value_rules::{ValueFault, value_fault};

/// The values of the parameters and constants of a model by their numbers, the table of these, and the first broken rule.
#[derive(Drop)]
pub struct ModelValues {
    pub table: Table,
    pub found: Vec<Option<Value>>,
    pub fault: Option<ValueFault>,
}

/// The values of the parameters and constants of a model, and the first broken rule of values. Memory that is refused is the
/// only error.
pub fn model_values<'a>(
    alloc: Global,
    file: &'a File<'a>,
    items: &[Item<'a>],
) -> Result<ModelValues, AllocError>
    ensures table { IfOk result (λ model. slots.IsTableOfParameters (instances.variables file.now.text.now file.now.classes.now (map (kept.seen file.now.text.now file.now.classes.now) items.now)) model.table) }
    ensures are { IfOk result (λ model. AreValues file.now.text.now file.now.classes.now (instances.variables file.now.text.now file.now.classes.now (map (kept.seen file.now.text.now file.now.classes.now) items.now)) (slots.seen model.table model.found.items)) }
    ensures fault { IfOk result (λ model. faults.Answers file.now.text.now model.table model.found.items file.now.classes.now (instances.variables file.now.text.now file.now.classes.now (map (kept.seen file.now.text.now file.now.classes.now) items.now)) model.fault) }
{
    let table = parameter_table(alloc, items)?;
    let own = parameters(alloc, file, items)?;
    let wanted = needs(alloc, file, items)?;
    let found = parameter_values(alloc, file.text, &table, own.as_slice())?;
    let fault = value_fault(
        alloc,
        file.text,
        &table,
        own.as_slice(),
        found.as_slice(),
        wanted.as_slice(),
    )?;
    Ok(ModelValues {
        table,
        found,
        fault,
    })
}
