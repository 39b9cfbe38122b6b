//! Arguments of modifications that name nothing, that give a value to what has none, or that give twice.
ghost use Rattle.std.specs.Prelude.{◌≡◌, IfOk, Some, flat_map};
ghost use Rattle.std.specs.Option.{option_copied};
ghost use Rattle.class_scopes.specs.Faults.{IsFirstPlace};
ghost use Rattle.class_scopes.specs.Places as places;
ghost use Rattle.class_scopes.specs.Reached.{AreReached};
ghost use Rattle.argument_rules.specs.N5 as N5;

use crate::paths::given_twice;
use crate::target::misplaced_in;
use class_scopes::{TypeName, lesser};
use mo_parser::{Arg, ClassDef, Element, Short};
use scope_names::Scopes;
use std::alloc::{AllocError, Global};

/// The least place of a wrong argument among those of a modification of a type.
fn wrong_among(
    alloc: Global,
    scopes: &Scopes<'_>,
    modified: Option<TypeName>,
    args: &[Arg],
) -> Result<Option<u32>, AllocError>
    ensures { IfOk result (λ least. least ≡ places.least (N5.wrong_among scopes.now.named.file.text.now scopes.now.named.file.classes.now modified args.now)) }
{
    let misplaced = misplaced_in(scopes, modified, args);
    let twice = given_twice(alloc, scopes.named.file.text, args)?;
    Ok(lesser(misplaced, twice))
}

/// The place of a component that has a value, where it is not simple.
fn valued(scopes: &Scopes<'_>, element: &Element) -> Option<u32>
    ensures { result ≡ places.least (N5.valued scopes.now.named.file.text.now scopes.now.named.file.classes.now element.now) }
{
    if element.binding.is_none() || scopes.is_variable(element) {
        None
    } else {
        Some(element.name.at)
    }
}

/// The least place of what is wrong with the modification of a component.
fn wrong_component(
    alloc: Global,
    scopes: &Scopes<'_>,
    element: &Element,
) -> Result<Option<u32>, AllocError>
    ensures { IfOk result (λ least. least ≡ places.least (N5.wrong_component scopes.now.named.file.text.now scopes.now.named.file.classes.now element.now)) }
{
    let modified = scopes.named.file.type_of(&element.base);
    let inside = wrong_among(alloc, scopes, modified, element.args.as_slice())?;
    Ok(lesser(valued(scopes, element), inside))
}

/// The least place of what is wrong with the modifications of components.
fn wrong_components(
    alloc: Global,
    scopes: &Scopes<'_>,
    elements: &[Element],
) -> Result<Option<u32>, AllocError>
    ensures { IfOk result (λ least. least ≡ places.least (flat_map (N5.wrong_component scopes.now.named.file.text.now scopes.now.named.file.classes.now) elements.now)) }
{
    let mut least = None;
    for element in elements {
        least = lesser(least, wrong_component(alloc, scopes, element)?);
    }
    Ok(least)
}

/// The least place of a wrong argument of a short connector.
fn wrong_short(
    alloc: Global,
    scopes: &Scopes<'_>,
    class: usize,
    short: Option<&Short>,
) -> Result<Option<u32>, AllocError>
    ensures { IfOk result (λ least. least ≡ places.least (places.in_option (N5.wrong_short scopes.now.named.file.text.now scopes.now.named.file.classes.now class) (option_copied short.entry))) }
{
    match short {
        Some(short) => {
            wrong_among(
                alloc,
                scopes,
                Some(TypeName::Class(class)),
                short.args.as_slice(),
            )
        }
        None => Ok(None),
    }
}

/// The least place of a wrong modification in a class.
fn wrong_in(
    alloc: Global,
    scopes: &Scopes<'_>,
    class: usize,
    definition: &ClassDef,
) -> Result<Option<u32>, AllocError>
    ensures { IfOk result (λ least. least ≡ places.least (N5.wrong_in scopes.now.named.file.text.now scopes.now.named.file.classes.now class definition.now)) }
{
    let components = wrong_components(alloc, scopes, definition.elements.as_slice())?;
    let short = wrong_short(alloc, scopes, class, definition.short.as_ref())?;
    Ok(lesser(components, short))
}

/// The least place of a wrong modification in a class of a number.
fn wrong(alloc: Global, scopes: &Scopes<'_>, class: usize) -> Result<Option<u32>, AllocError>
    ensures { IfOk result (λ least. least ≡ places.least (N5.wrong scopes.now.named.file.text.now scopes.now.named.file.classes.now class)) }
{
    match scopes.named.file.classes.get(class) {
        Some(definition) => wrong_in(alloc, scopes, class, definition),
        None => Ok(None),
    }
}

/// The least place of a wrong modification in several classes.
fn all_wrong(
    alloc: Global,
    scopes: &Scopes<'_>,
    classes: &[usize],
) -> Result<Option<u32>, AllocError>
    ensures { IfOk result (λ least. least ≡ places.least (flat_map (N5.wrong scopes.now.named.file.text.now scopes.now.named.file.classes.now) classes.now)) }
{
    let mut least = None;
    for class in classes {
        least = lesser(least, wrong(alloc, scopes, *class)?);
    }
    Ok(least)
}

/// The first place where N5 is broken: the least place of a modification, in the classes that are reached, that names
/// nothing, gives a value to what has none, or gives something to a path for the second time. Memory that is refused is
/// the only error.
pub fn misplaced_argument(alloc: Global, scopes: &Scopes<'_>) -> Result<Option<u32>, AllocError>
    requires { AreReached scopes.now.named.file.text.now scopes.now.named.file.classes.now scopes.now.named.chosen scopes.now.named.reached.items }
    ensures { IfOk result (λ place. IsFirstPlace (N5.Breaks scopes.now.named.file.text.now scopes.now.named.file.classes.now (Some scopes.now.named.chosen)) place) }
{
    let least = all_wrong(alloc, scopes, scopes.named.reached.as_slice())?;
    Ok(least)
}
