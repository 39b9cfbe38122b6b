//! The rules that are broken at variables.
ghost use Rattle.std.specs.Prelude.{◌≡◌, ◌++◌, IfOk, OnOk, List, ℕ, flat_map, map, slice_get};
ghost use Rattle.flat_instances.specs.Instances.{variables};
ghost use Rattle.flat_instances.specs.Kept.{seen};
ghost use Rattle.mo_flatten.specs.private.Named as named;
ghost use Rattle.parameter_values.specs.Values.{is_fixed};

use class_scopes::NameCode;
use flat_answer::FlattenEnd;
use flat_instances::Item;
use flat_model::Place;
use mo_parser::Variability;
use std::alloc::{AllocError, Global};
use sync_values::Text;
use value_rules::ValueFault;

/// Whether a component is a parameter or constant.
fn is_fixed(variability: Variability) -> bool
    ensures { result ≡ is_fixed variability }
{
    match variability {
        Variability::Plain => false,
        Variability::Parameter => true,
        Variability::Constant => true,
    }
}

/// Adds the flat name of an item, if it is a variable.
fn add_variable(alloc: Global, item: &Item<'_>, found: &mut Vec<Text>) -> Result<(), AllocError>
    ensures { OnOk result (found.new.items ≡ found.old.items ++ named.variable_name item.now) }
{
    if let Item::Declared(variable) = item {
        let name = Text::from_bytes(alloc, variable.name.as_bytes())?;
        found.push(name)?;
    }
    Ok(())
}

/// The flat names of the variables.
fn variable_names(alloc: Global, items: &[Item<'_>]) -> Result<Vec<Text>, AllocError>
    ensures { IfOk result (λ found. found.items ≡ flat_map named.variable_name items.now) }
{
    let mut found = Vec::new(alloc);
    for item in items {
        add_variable(alloc, item, &mut found)?;
    }
    Ok(found)
}

/// Adds the flat name of an item, if it is a parameter or constant.
fn add_parameter(alloc: Global, item: &Item<'_>, found: &mut Vec<Text>) -> Result<(), AllocError>
    ensures { OnOk result (found.new.items ≡ found.old.items ++ named.parameter_name item.now) }
{
    if let Item::Declared(variable) = item {
        if is_fixed(variable.element.variability) {
            let name = Text::from_bytes(alloc, variable.name.as_bytes())?;
            found.push(name)?;
        }
    }
    Ok(())
}

/// The flat names of the parameters and constants.
fn parameter_names(alloc: Global, items: &[Item<'_>]) -> Result<Vec<Text>, AllocError>
    ensures { IfOk result (λ found. found.items ≡ flat_map named.parameter_name items.now) }
{
    let mut found = Vec::new(alloc);
    for item in items {
        add_parameter(alloc, item, &mut found)?;
    }
    Ok(found)
}

/// The place of a name by its number.
fn place_of(alloc: Global, names: &[Text], number: usize) -> Result<Place, AllocError>
    ensures { IfOk result (λ place. place ≡ named.place_of (slice_get names.now number)) }
{
    match names.get(number) {
        Some(name) => {
            let text = Text::from_bytes(alloc, name.as_bytes())?;
            Ok(Place::Name(text))
        }
        None => {
            let text = Text::from_bytes(alloc, b"".as_slice())?;
            Ok(Place::Name(text))
        }
    }
}

/// A broken rule of values, at the flat name of its variable. Memory that is refused is the only error.
pub fn value_end(
    alloc: Global,
    items: &[Item<'_>],
    fault: ValueFault,
) -> Result<FlattenEnd, AllocError>
    ensures { IfOk result (λ end. (text : List ℕ) (classes : _) → end ≡ named.end_of text classes (variables text classes (map (seen text classes) items.now)) fault) }
{
    match fault {
        ValueFault::Waiting(x) => {
            let names = parameter_names(alloc, items)?;
            let place = place_of(alloc, names.as_slice(), x)?;
            Ok(FlattenEnd::Fault {
                code: NameCode::N6,
                place,
            })
        }
        ValueFault::Failing(x) => {
            let names = variable_names(alloc, items)?;
            let place = place_of(alloc, names.as_slice(), x)?;
            Ok(FlattenEnd::Fault {
                code: NameCode::N7,
                place,
            })
        }
    }
}
