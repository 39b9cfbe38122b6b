//! Components and short connectors of types that are not allowed there.
ghost use Rattle.std.specs.Prelude.{◌≡◌, Some, flat_map};
ghost use Rattle.std.specs.Option.{option_copied};
ghost use Rattle.class_scopes.specs.Faults.{IsFirstPlace};
ghost use Rattle.class_scopes.specs.Places as places;
ghost use Rattle.class_scopes.specs.Reached.{AreReached};
ghost use Rattle.class_scopes.specs.Spelled as spellings;
ghost use Rattle.parameter_values.specs.Values as values;
ghost use Rattle.class_rules.specs.N9 as N9;

use class_scopes::{File, Named, TypeName, lesser, place_of};
use flat_model::NameKind;
use mo_parser::{Causality, ClassDef, ClassKind, Element, Path, Short, Variability};

/// Whether a component is a parameter or a constant.
fn is_fixed(variability: Variability) -> bool
    ensures { result ≡ values.is_fixed variability }
{
    match variability {
        Variability::Plain => false,
        Variability::Parameter => true,
        Variability::Constant => true,
    }
}

/// Whether a type is a Clock, also behind a short connector.
fn is_clock(file: &File<'_>, type_name: TypeName) -> bool
    ensures { result ≡ N9.is_clock (N9.kind_behind file.now.text.now file.now.classes.now (Some type_name)) }
{
    file.kind_of(type_name) == Some(NameKind::Clock)
}

/// Whether a component that is not simple is allowed in a class.
fn is_allowed_part(kind: ClassKind, element: &Element) -> bool
    ensures { result ≡ N9.is_allowed_part kind element.now }
{
    match (kind, element.causality) {
        (ClassKind::Connector, _) => false,
        (_, Causality::Plain) => !is_fixed(element.variability),
        _ => false,
    }
}

/// Whether a component is allowed in a class.
fn is_allowed(file: &File<'_>, kind: ClassKind, element: &Element) -> bool
    ensures { result ≡ N9.is_allowed file.now.text.now file.now.classes.now kind element.now }
{
    match file.type_of(&element.base) {
        Some(type_name) => {
            if file.is_simple(type_name) {
                return !(is_fixed(element.variability) && is_clock(file, type_name));
            }
            match type_name {
                TypeName::Foreign => false,
                _ => is_allowed_part(kind, element),
            }
        }
        None => is_allowed_part(kind, element),
    }
}

/// The place of a name, where it is refused.
fn unless(allowed: bool, path: &Path) -> Option<u32>
    ensures { result ≡ places.least (places.unless allowed (spellings.place_of path.now)) }
{
    if allowed { None } else { Some(place_of(path)) }
}

/// The least place of a refused type among the components of a class.
fn refused_components(file: &File<'_>, kind: ClassKind, elements: &[Element]) -> Option<u32>
    ensures { result ≡ places.least (flat_map (N9.refused_component file.now.text.now file.now.classes.now kind) elements.now) }
{
    let mut least = None;
    for element in elements {
        let allowed = is_allowed(file, kind, element);
        least = lesser(least, unless(allowed, &element.base));
    }
    least
}

/// The place of the base of a short connector, where it is refused.
fn refused_short(file: &File<'_>, short: Option<&Short>) -> Option<u32>
    ensures { result ≡ places.least (places.in_option (N9.refused_short file.now.text.now file.now.classes.now) (option_copied short.entry)) }
{
    match short {
        Some(short) => {
            let simple = file.kind_alone(&short.base).is_some();
            unless(simple, &short.base)
        }
        None => None,
    }
}

/// The least place of a refused type in a class.
fn refused_in(file: &File<'_>, definition: &ClassDef) -> Option<u32>
    ensures { result ≡ places.least (N9.refused_in file.now.text.now file.now.classes.now definition.now) }
{
    let components = refused_components(file, definition.kind, definition.elements.as_slice());
    lesser(components, refused_short(file, definition.short.as_ref()))
}

/// The least place of a refused type in a class of a number.
fn refused(file: &File<'_>, class: usize) -> Option<u32>
    ensures { result ≡ places.least (N9.refused file.now.text.now file.now.classes.now class) }
{
    match file.classes.get(class) {
        Some(definition) => refused_in(file, definition),
        None => None,
    }
}

/// The least place of a refused type in several classes.
fn all_refused(file: &File<'_>, classes: &[usize]) -> Option<u32>
    ensures { result ≡ places.least (flat_map (N9.refused file.now.text.now file.now.classes.now) classes.now) }
{
    let mut least = None;
    for class in classes {
        least = lesser(least, refused(file, *class));
    }
    least
}

/// The first place where N9 is broken: the least place of a type name that is not allowed in the classes that are reached.
pub fn refused_type(named: &Named<'_>) -> Option<u32>
    requires { AreReached named.now.file.text.now named.now.file.classes.now named.now.chosen named.now.reached.items }
    ensures { IsFirstPlace (N9.Breaks named.now.file.text.now named.now.file.classes.now (Some named.now.chosen)) result }
{
    all_refused(&named.file, named.reached.as_slice())
}
