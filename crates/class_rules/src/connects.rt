//! Connects of what is no connector, or of connectors that are not alike.
ghost use Rattle.std.specs.Prelude.{◌≡◌, Some, flat_map};
ghost use Rattle.std.specs.Option.{option_copied};
ghost use Rattle.class_scopes.specs.Faults.{IsFirstPlace};
ghost use Rattle.class_scopes.specs.Places as places;
ghost use Rattle.class_scopes.specs.Reached.{AreReached};
ghost use Rattle.class_scopes.specs.Types as types;
ghost use Rattle.class_rules.specs.N8 as N8;

use class_scopes::{File, TypeName, lesser, place_of};
use flat_model::NameKind;
use mo_parser::{ClassDef, ClassKind, Element, Path, TreeEq, spelled};
use scope_names::Scopes;

/// Whether two simple types are one.
fn same_kind(a: Option<NameKind>, b: Option<NameKind>) -> bool
    ensures { result ≡ N8.same_kind a b }
{
    match (a, b) {
        (None, None) => true,
        (Some(NameKind::Integer), Some(NameKind::Integer)) => true,
        (Some(NameKind::Boolean), Some(NameKind::Boolean)) => true,
        (Some(NameKind::Clock), Some(NameKind::Clock)) => true,
        _ => false,
    }
}

/// The simple type that a type name stands for, also through a short connector.
fn kind_named(file: &File<'_>, path: &Path) -> Option<NameKind>
    ensures { result ≡ N8.kind_named file.now.text.now file.now.classes.now path.now }
{
    match file.type_of(path) {
        Some(type_name) => file.kind_of(type_name),
        None => None,
    }
}

/// Whether two members have one name and one simple type.
fn same_member(file: &File<'_>, a: &Element, b: &Element) -> bool
    ensures { result ≡ N8.same_member file.now.text.now file.now.classes.now a.now b.now }
{
    spelled(file.text, a.name) == spelled(file.text, b.name)
        && same_kind(kind_named(file, &a.base), kind_named(file, &b.base))
}

/// Whether two lists of members are the same.
fn same_members(file: &File<'_>, a: &[Element], b: &[Element]) -> bool
    ensures { result ≡ N8.same_members file.now.text.now file.now.classes.now a.now b.now }
{
    if a.len() != b.len() {
        return false;
    }
    for (number, member) in a.iter().enumerate() {
        if !same_member(file, member, &b[number]) {
            return false;
        }
    }
    true
}

/// Whether two connectors have the same members.
fn are_alike(file: &File<'_>, one: &ClassDef, other: &ClassDef) -> bool
    ensures { result ≡ N8.are_alike file.now.text.now file.now.classes.now one.now other.now }
{
    match (&one.short, &other.short) {
        (Some(a), Some(b)) => { same_kind(kind_named(file, &a.base), kind_named(file, &b.base)) }
        (None, None) => same_members(file, one.elements.as_slice(), other.elements.as_slice()),
        _ => false,
    }
}

/// The connector that a component is of.
fn connector_of<'a>(file: &File<'a>, element: &Element) -> Option<&'a ClassDef>
    ensures { option_copied result ≡ N8.connector_typed file.now.text.now file.now.classes.now (types.type_of file.now.text.now file.now.classes.now element.now.base) }
{
    let Some(TypeName::Class(class)) = file.type_of(&element.base) else {
        return None;
    };
    match file.classes.get(class) {
        Some(definition) => {
            if definition.kind == ClassKind::Connector {
                Some(definition)
            } else {
                None
            }
        }
        None => None,
    }
}

/// The connector that a name leads to.
fn connector_along<'a>(scopes: &Scopes<'a>, class: usize, path: &Path) -> Option<&'a ClassDef>
    ensures { option_copied result ≡ N8.connector_along scopes.now.named.file.text.now scopes.now.named.file.classes.now class path.now }
{
    match scopes.element_along(path.parts.as_slice(), class) {
        Some(element) => connector_of(&scopes.named.file, element),
        None => None,
    }
}

/// The place of a wrong argument of a connect.
fn unfit_pair(scopes: &Scopes<'_>, class: usize, a: &Path, b: &Path) -> Option<u32>
    ensures { result ≡ places.least (N8.unfit_by scopes.now.named.file.text.now scopes.now.named.file.classes.now (N8.connector_along scopes.now.named.file.text.now scopes.now.named.file.classes.now class a.now) (N8.connector_along scopes.now.named.file.text.now scopes.now.named.file.classes.now class b.now) a.now b.now) }
{
    let Some(one) = connector_along(scopes, class, a) else {
        return Some(place_of(a));
    };
    let Some(other) = connector_along(scopes, class, b) else {
        return Some(place_of(b));
    };
    if are_alike(&scopes.named.file, one, other) {
        None
    } else {
        Some(place_of(a))
    }
}

/// The place of a wrong argument of an equation.
fn unfit(scopes: &Scopes<'_>, class: usize, equation: &TreeEq) -> Option<u32>
    ensures { result ≡ places.least (N8.unfit scopes.now.named.file.text.now scopes.now.named.file.classes.now class equation.now) }
{
    match equation {
        TreeEq::Connect(a, b) => unfit_pair(scopes, class, a, b),
        TreeEq::Equal(_, _) => None,
        TreeEq::When(_, _) => None,
    }
}

/// The least place of a wrong argument of a connect in a class.
fn unfit_connects(scopes: &Scopes<'_>, class: usize) -> Option<u32>
    ensures { result ≡ places.least (N8.unfit_connects scopes.now.named.file.text.now scopes.now.named.file.classes.now class) }
{
    let Some(definition) = scopes.named.file.classes.get(class) else {
        return None;
    };
    let mut least = None;
    for equation in definition.equations.as_slice() {
        least = lesser(least, unfit(scopes, class, equation));
    }
    least
}

/// The least place of a wrong argument of a connect in several classes.
fn all_unfit(scopes: &Scopes<'_>, classes: &[usize]) -> Option<u32>
    ensures { result ≡ places.least (flat_map (N8.unfit_connects scopes.now.named.file.text.now scopes.now.named.file.classes.now) classes.now) }
{
    let mut least = None;
    for class in classes {
        least = lesser(least, unfit_connects(scopes, *class));
    }
    least
}

/// The first place where N8 is broken: the least place of a wrong argument of a connect in the classes that are reached.
pub fn unfit_connect(scopes: &Scopes<'_>) -> Option<u32>
    requires { AreReached scopes.now.named.file.text.now scopes.now.named.file.classes.now scopes.now.named.chosen scopes.now.named.reached.items }
    ensures { IsFirstPlace (N8.Breaks scopes.now.named.file.text.now scopes.now.named.file.classes.now (Some scopes.now.named.chosen)) result }
{
    all_unfit(scopes, scopes.named.reached.as_slice())
}
