//! Unknown names.
ghost use Rattle.std.specs.Prelude.{◌≡◌, IfOk, OnOk, Some, flat_map, map};
ghost use Rattle.class_scopes.specs.Places as places;
ghost use Rattle.class_scopes.specs.Faults.{IsFirstPlace};
ghost use Rattle.class_scopes.specs.Reached.{AreReached};
ghost use Rattle.class_scopes.specs.Spelled as spellings;
ghost use Rattle.scope_names.specs.N3 as N3;
ghost use Rattle.scope_names.specs.Written as written;

use crate::scopes::Scopes;
use crate::written::{connected_in_all, names_in_args, names_in_equations, names_in_value};
use class_scopes::{TypeName, is_time, lesser, place_of};
use mo_parser::{ClassDef, Element, Path};
use std::alloc::{AllocError, Global};

/// Whether a name in an expression of a class leads to a variable.
fn is_known_name(scopes: &Scopes<'_>, class: usize, path: &Path) -> bool
    ensures { result ≡ N3.is_known_name scopes.now.named.file.text.now scopes.now.named.file.classes.now class path.now }
{
    if is_time(scopes.named.file.text, path.parts.as_slice()) {
        return true;
    }
    match scopes.element_along(path.parts.as_slice(), class) {
        Some(element) => leads_to_variable(scopes, element),
        None => false,
    }
}

/// Whether a component is a variable for those who read it.
fn leads_to_variable(scopes: &Scopes<'_>, element: &Element) -> bool
    ensures { result ≡ N3.leads_to_variable scopes.now.named.file.text.now scopes.now.named.file.classes.now (Some element.now) }
{
    match scopes.named.file.type_of(&element.base) {
        Some(TypeName::Foreign) => true,
        Some(type_name) => scopes.named.file.is_simple(type_name),
        None => false,
    }
}

/// The place of a name, where it is not known.
fn unless(known: bool, path: &Path) -> Option<u32>
    ensures { result ≡ places.least (places.unless known (spellings.place_of path.now)) }
{
    if known { None } else { Some(place_of(path)) }
}

/// The least place of a name that leads to no variable of a class.
fn unknown_among(scopes: &Scopes<'_>, class: usize, paths: &[&Path]) -> Option<u32>
    ensures { result ≡ places.least (flat_map (N3.unknown_name scopes.now.named.file.text.now scopes.now.named.file.classes.now class) (map (λ path. path.now) paths.now)) }
{
    let mut least = None;
    for path in paths {
        least = lesser(least, unless(is_known_name(scopes, class, path), path));
    }
    least
}

/// The least place of a name that leads to no component of a class.
fn unconnected_among(scopes: &Scopes<'_>, class: usize, paths: &[&Path]) -> Option<u32>
    ensures { result ≡ places.least (flat_map (N3.unconnected_name scopes.now.named.file.text.now scopes.now.named.file.classes.now class) (map (λ path. path.now) paths.now)) }
{
    let mut least = None;
    for path in paths {
        let known = scopes.element_along(path.parts.as_slice(), class).is_some();
        least = lesser(least, unless(known, path));
    }
    least
}

/// The least place of a name that is not `time`.
fn foreign_among(text: &[u8], paths: &[&Path]) -> Option<u32>
    ensures { result ≡ places.least (flat_map (N3.foreign_name text.now) (map (λ path. path.now) paths.now)) }
{
    let mut least = None;
    for path in paths {
        let known = is_time(text, path.parts.as_slice());
        least = lesser(least, unless(known, path));
    }
    least
}

/// Adds the names in the components of a class.
fn names_in_elements<'a>(
    elements: &'a [Element],
    found: &mut Vec<&'a Path>,
) -> Result<(), AllocError>
    ensures { OnOk result (written.Adds found.old.items (flat_map written.names_in_element elements.now) found.new.items) }
{
    for element in elements {
        names_in_args(element.args.as_slice(), found)?;
        names_in_value(element.binding.as_ref(), found)?;
    }
    Ok(())
}

/// The least place of a name of a class, in its components and equations, that leads to no variable.
fn unknown_in_class(
    alloc: Global,
    scopes: &Scopes<'_>,
    class: usize,
    definition: &ClassDef,
) -> Result<Option<u32>, AllocError>
    ensures { IfOk result (λ least. least ≡ places.least (flat_map (N3.unknown_name scopes.now.named.file.text.now scopes.now.named.file.classes.now class) (written.names_of_class definition.now))) }
{
    let mut found = Vec::new(alloc);
    names_in_elements(definition.elements.as_slice(), &mut found)?;
    names_in_equations(definition.equations.as_slice(), &mut found)?;
    Ok(unknown_among(scopes, class, found.as_slice()))
}

/// The least place of a name that a class connects, which leads to no component.
fn unconnected_in_class(
    alloc: Global,
    scopes: &Scopes<'_>,
    class: usize,
    definition: &ClassDef,
) -> Result<Option<u32>, AllocError>
    ensures { IfOk result (λ least. least ≡ places.least (flat_map (N3.unconnected_name scopes.now.named.file.text.now scopes.now.named.file.classes.now class) (written.connected_in_class definition.now))) }
{
    let mut found = Vec::new(alloc);
    connected_in_all(definition.equations.as_slice(), &mut found)?;
    Ok(unconnected_among(scopes, class, found.as_slice()))
}

/// The least place of a name in the arguments of a short connector.
fn foreign_in_class(
    alloc: Global,
    text: &[u8],
    definition: &ClassDef,
) -> Result<Option<u32>, AllocError>
    ensures { IfOk result (λ least. least ≡ places.least (flat_map (N3.foreign_name text.now) (places.in_option written.names_of_short definition.now.short))) }
{
    let Some(short) = &definition.short else {
        return Ok(None);
    };
    let mut found = Vec::new(alloc);
    names_in_args(short.args.as_slice(), &mut found)?;
    Ok(foreign_among(text, found.as_slice()))
}

/// The least place of an unknown name in a class.
fn unknown_names(
    alloc: Global,
    scopes: &Scopes<'_>,
    class: usize,
) -> Result<Option<u32>, AllocError>
    ensures { IfOk result (λ least. least ≡ places.least (N3.unknown_names scopes.now.named.file.text.now scopes.now.named.file.classes.now class)) }
{
    let Some(definition) = scopes.named.file.classes.get(class) else {
        return Ok(None);
    };
    let unknown = unknown_in_class(alloc, scopes, class, definition)?;
    let unconnected = unconnected_in_class(alloc, scopes, class, definition)?;
    let foreign = foreign_in_class(alloc, scopes.named.file.text, definition)?;
    Ok(lesser(lesser(unknown, unconnected), foreign))
}

/// The least place of an unknown name in several classes.
fn all_unknown_names(
    alloc: Global,
    scopes: &Scopes<'_>,
    classes: &[usize],
) -> Result<Option<u32>, AllocError>
    ensures { IfOk result (λ least. least ≡ places.least (flat_map (N3.unknown_names scopes.now.named.file.text.now scopes.now.named.file.classes.now) classes.now)) }
{
    let mut least = None;
    for class in classes {
        least = lesser(least, unknown_names(alloc, scopes, *class)?);
    }
    Ok(least)
}

/// The first place where N3 is broken: the least place of an unknown name in the classes that are reached. Memory that is
/// refused is the only error.
pub fn unknown_name(alloc: Global, scopes: &Scopes<'_>) -> Result<Option<u32>, AllocError>
    requires { AreReached scopes.now.named.file.text.now scopes.now.named.file.classes.now scopes.now.named.chosen scopes.now.named.reached.items }
    ensures { IfOk result (λ place. IsFirstPlace (N3.Breaks scopes.now.named.file.text.now scopes.now.named.file.classes.now (Some scopes.now.named.chosen)) place) }
{
    let least = all_unknown_names(alloc, scopes, scopes.named.reached.as_slice())?;
    Ok(least)
}
