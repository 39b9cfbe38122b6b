//! The parameters of a model, and what its variables need.
ghost use Rattle.std.specs.Prelude.{◌≡◌, ◌++◌, IfOk, OnOk, map};
ghost use Rattle.flat_instances.specs.Instances as instances;
ghost use Rattle.flat_instances.specs.Kept as kept;
ghost use Rattle.parameter_values.specs.Givens as givens;
ghost use Rattle.parameter_values.specs.Slots as slots;
ghost use Rattle.value_rules.specs.Needs as wanted;
ghost use Rattle.model_values.specs.private.ItemNeeds as parts;

use crate::given::{is_fixed, needs_of, parameter_of};
use class_scopes::File;
use flat_instances::Item;
use parameter_values::Parameter;
use std::alloc::{AllocError, Global};
use value_rules::Needs;

/// Adds what an item needs, if it is a variable.
fn add_needs<'a>(
    alloc: Global,
    file: &'a File<'a>,
    item: &Item<'a>,
    found: &mut Vec<Needs<'a>>,
) -> Result<(), AllocError>
    ensures { OnOk result (map wanted.needed found.new.items ≡ map wanted.needed found.old.items ++ parts.needs_in file.now.text.now file.now.classes.now item.now) }
{
    if let Item::Declared(variable) = item {
        let needs = needs_of(alloc, file, variable)?;
        found.push(needs)?;
    }
    Ok(())
}

/// Adds an item, if it is a parameter or constant.
fn add_parameter<'a>(
    alloc: Global,
    file: &'a File<'a>,
    item: &Item<'a>,
    found: &mut Vec<Parameter<'a>>,
) -> Result<(), AllocError>
    ensures { OnOk result (map givens.valued found.new.items ≡ map givens.valued found.old.items ++ parts.parameters_in file.now.text.now file.now.classes.now item.now) }
{
    if let Item::Declared(variable) = item {
        if is_fixed(variable.element.variability) {
            let parameter = parameter_of(alloc, file, variable)?;
            found.push(parameter)?;
        }
    }
    Ok(())
}

/// What the variables of a model need, in flat order. Memory that is refused is the only error.
pub fn needs<'a>(
    alloc: Global,
    file: &'a File<'a>,
    items: &[Item<'a>],
) -> Result<Vec<Needs<'a>>, AllocError>
    ensures { IfOk result (λ found. map wanted.needed found.items ≡ map (wanted.needs_of file.now.text.now file.now.classes.now) (instances.variables file.now.text.now file.now.classes.now (map (kept.seen file.now.text.now file.now.classes.now) items.now))) }
{
    let mut found = Vec::new(alloc);
    for item in items {
        add_needs(alloc, file, item, &mut found)?;
    }
    Ok(found)
}

/// The parameters and constants of a model, in flat order. Memory that is refused is the only error.
pub fn parameters<'a>(
    alloc: Global,
    file: &'a File<'a>,
    items: &[Item<'a>],
) -> Result<Vec<Parameter<'a>>, AllocError>
    ensures { IfOk result (λ found. map givens.valued found.items ≡ map (givens.valued_of file.now.text.now file.now.classes.now) (slots.parameters (instances.variables file.now.text.now file.now.classes.now (map (kept.seen file.now.text.now file.now.classes.now) items.now)))) }
{
    let mut found = Vec::new(alloc);
    for item in items {
        add_parameter(alloc, file, item, &mut found)?;
    }
    Ok(found)
}
