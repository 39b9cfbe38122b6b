//! What arguments of modifications name. Source: MLS 3.6, chapter 7, "Modifications", in this project's profile.
ghost use Rattle.std.specs.Prelude.{◌≡◌, flat_map, map};
ghost use Rattle.class_scopes.specs.Places as places;
ghost use Rattle.class_scopes.specs.Spelled as spellings;
ghost use Rattle.class_scopes.specs.Types as types;
ghost use Rattle.mo_parser.specs.declared.tree.Arg.TheViews.{out-Arg};
ghost use Rattle.argument_rules.specs.Targets as meaning;

use class_scopes::{File, TypeName, lesser, place_of};
use flat_model::NameKind;
use mo_parser::{Arg, Path, Span, spelled};
use scope_names::Scopes;

/// What the name of an argument leads to.
#[derive(Clone, Copy, PartialEq, Eq)]
pub enum Target {
    /// An attribute of a variable.
    Attribute,
    /// A component of a type.
    Part(TypeName),
}

/// Whether a name is that of an attribute of variables.
fn is_attribute(name: &[u8]) -> bool
    ensures { result ≡ meaning.is_attribute name.now }
{
    name == b"start".as_slice()
        || name == b"min".as_slice()
        || name == b"max".as_slice()
        || name == b"quantity".as_slice()
}

/// Whether variables of a type are Clocks, also behind a short connector.
fn is_clock(file: &File<'_>, type_name: TypeName) -> bool
    ensures { result ≡ meaning.is_clock (types.kind_of file.now.text.now file.now.classes.now type_name) }
{
    match file.kind_of(type_name) {
        Some(NameKind::Clock) => true,
        _ => false,
    }
}

/// The attribute of a name, which ends its path, in a variable of a type.
fn attribute(file: &File<'_>, type_name: TypeName, name: &[u8], last: bool) -> Option<Target>
    ensures { result ≡ meaning.attribute (types.kind_of file.now.text.now file.now.classes.now type_name) name.now last }
{
    if last && is_attribute(name) && !is_clock(file, type_name) {
        Some(Target::Attribute)
    } else {
        None
    }
}

/// The type of the component of a name in a component of a type.
fn part_type(scopes: &Scopes<'_>, type_name: TypeName, name: &[u8]) -> Option<TypeName>
    ensures { result ≡ meaning.part_type scopes.now.named.file.text.now scopes.now.named.file.classes.now type_name name.now }
{
    let TypeName::Class(class) = type_name else {
        return None;
    };
    match scopes.element_named(class, name) {
        Some(element) => scopes.named.file.type_of(&element.base),
        None => None,
    }
}

/// What a path leads to in a component of a type.
fn target_along(scopes: &Scopes<'_>, parts: &[Span], type_name: TypeName) -> Option<Target>
    ensures { result ≡ meaning.target scopes.now.named.file.text.now scopes.now.named.file.classes.now (map (spellings.spelled scopes.now.named.file.text.now) parts.now) type_name }
{
    let mut type_name = type_name;
    for (number, part) in parts.iter().enumerate() {
        let name = spelled(scopes.named.file.text, *part);
        if scopes.named.file.is_simple(type_name) {
            let last = number + 1 == parts.len();
            return attribute(&scopes.named.file, type_name, name, last);
        }
        type_name = part_type(scopes, type_name, name)?;
    }
    Some(Target::Part(type_name))
}

/// What a path leads to in what is modified; nothing where that has no parts.
fn target_in(scopes: &Scopes<'_>, inside: Option<TypeName>, path: &Path) -> Option<Target>
    ensures { result ≡ meaning.target_in scopes.now.named.file.text.now scopes.now.named.file.classes.now inside (spellings.idents scopes.now.named.file.text.now path.now) }
{
    match inside {
        Some(type_name) => target_along(scopes, path.parts.as_slice(), type_name),
        None => None,
    }
}

/// The place of an argument that gives a value to a component of a type, where that has none.
fn valued(file: &File<'_>, type_name: TypeName, arg: &Arg) -> Option<u32>
    ensures { result ≡ places.least (places.unless (meaning.takes_value file.now.text.now file.now.classes.now type_name (out-Arg arg.now).binding) (spellings.place_of (out-Arg arg.now).name)) }
{
    if arg.binding.is_none() || file.is_simple(type_name) {
        None
    } else {
        Some(place_of(&arg.name))
    }
}

/// The least place of a misplaced argument among an argument and those inside it.
#[cycle(misplaced)]
fn misplaced_by(scopes: &Scopes<'_>, inside: Option<TypeName>, arg: &Arg) -> Option<u32>
    ensures { result ≡ places.least (meaning.misplaced_by scopes.now.named.file.text.now scopes.now.named.file.classes.now arg.now inside) }
{
    match target_in(scopes, inside, &arg.name) {
        Some(Target::Part(type_name)) => {
            let value = valued(&scopes.named.file, type_name, arg);
            lesser(
                value,
                misplaced_in(scopes, Some(type_name), arg.args.as_slice()),
            )
        }
        Some(Target::Attribute) => misplaced_in(scopes, None, arg.args.as_slice()),
        None => Some(place_of(&arg.name)),
    }
}

/// The least place of a misplaced argument among several of what is modified.
#[cycle(misplaced)]
pub fn misplaced_in(scopes: &Scopes<'_>, inside: Option<TypeName>, args: &[Arg]) -> Option<u32>
    ensures { result ≡ places.least (meaning.misplaced_in scopes.now.named.file.text.now scopes.now.named.file.classes.now inside args.now) }
{
    let mut least = None;
    for arg in args {
        least = lesser(least, misplaced_by(scopes, inside, arg));
    }
    least
}
