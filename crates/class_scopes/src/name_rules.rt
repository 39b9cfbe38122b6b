//! Type names and the names of classes and elements.
ghost use Rattle.std.specs.Prelude.{◌≡◌, ℕ, ◌<◌, ◌^◌, IfOk, length, map, flat_map, Some, Option, option_map};
ghost use Rattle.class_scopes.specs.N1 as N1;
ghost use Rattle.class_scopes.specs.N2 as N2;
ghost use Rattle.class_scopes.specs.Names as stage;
ghost use Rattle.class_scopes.specs.Places as places;
ghost use Rattle.class_scopes.specs.Reached as relation;
ghost use Rattle.class_scopes.specs.Spelled as spellings;
ghost use Rattle.class_scopes.specs.Tables.{IsTableOf};
ghost use Rattle.class_scopes.specs.Types as types;

use crate::end::{NameCode, RuleEnd};
use crate::file::{File, Opened};
use crate::named::Named;
use crate::reach::reached;
use crate::table::{Declared, lesser, table_of};
use mo_parser::{ClassDef, Element, Path, Span};
use std::alloc::{AllocError, Global};

/// The place of a name, that of its first part; 0 where it has none, which no tree of a text has.
pub fn place_of(path: &Path) -> u32
    ensures { result ≡ spellings.place_of path.now }
{
    match path.parts.as_slice() {
        [first, ..] => first.at,
        [] => 0,
    }
}

/// The place of an unknown type name.
fn unknown_type(file: &File<'_>, path: &Path) -> Option<u32>
    ensures { result ≡ places.least (N1.unknown_type file.now.text.now file.now.classes.now path.now) }
{
    if file.type_of(path).is_some() {
        None
    } else {
        Some(place_of(path))
    }
}

/// The least place of an unknown type name in a class.
fn unknown_types(file: &File<'_>, class: usize) -> Option<u32>
    ensures { result ≡ places.least (N1.unknown_types file.now.text.now file.now.classes.now class) }
{
    let mut least = None;
    for element in file.elements_of(class) {
        least = lesser(least, unknown_type(file, &element.base));
    }
    match file.short_of(class) {
        Some(short) => lesser(least, unknown_type(file, &short.base)),
        None => least,
    }
}

/// Where the names of elements stand.
fn name_spans(alloc: Global, elements: &[Element]) -> Result<Vec<Span>, AllocError>
    ensures { IfOk result (λ spans. spans.items ≡ map (λ element. element.name) elements.now) }
{
    let mut spans = Vec::new(alloc);
    for element in elements {
        spans.push(element.name)?;
    }
    Ok(spans)
}

/// The components of a class by their names, each with the number of the first of its name, and the least place of a
/// second one of one name.
pub fn declared_in(alloc: Global, file: &File<'_>, class: usize) -> Result<Declared, AllocError>
    ensures table { IfOk result (λ declared. IsTableOf (types.element_names file.now.text.now file.now.classes.now class) declared.table) }
    ensures repeated { IfOk result (λ declared. declared.repeated ≡ places.least (N2.repeated_elements file.now.text.now file.now.classes.now class)) }
{
    let spans = name_spans(alloc, file.elements_of(class))?;
    let declared = table_of(alloc, file.text, spans.as_slice())?;
    Ok(declared)
}

/// The least place of an unknown type name in several classes.
fn all_unknown_types(file: &File<'_>, classes: &[usize]) -> Option<u32>
    ensures { result ≡ places.least (flat_map (N1.unknown_types file.now.text.now file.now.classes.now) classes.now) }
{
    let mut least = None;
    for class in classes {
        least = lesser(least, unknown_types(file, *class));
    }
    least
}

/// The least place of a second element of one name in several classes.
fn all_repeated_elements(
    alloc: Global,
    file: &File<'_>,
    classes: &[usize],
) -> Result<Option<u32>, AllocError>
    ensures { IfOk result (λ least. least ≡ places.least (flat_map (N2.repeated_elements file.now.text.now file.now.classes.now) classes.now)) }
{
    let mut least = None;
    for class in classes {
        let declared = declared_in(alloc, file, *class)?;
        least = lesser(least, declared.repeated);
    }
    Ok(least)
}

/// The class that is chosen by a name, or the last one.
fn chosen(file: &File<'_>, class: Option<&[u8]>) -> Option<usize>
    ensures { result ≡ relation.chosen_by file.now.text.now file.now.classes.now (option_map (λ name. name.now) class.entry) }
{
    match class {
        Some(name) => file.class_named(name),
        None => {
            if file.classes.is_empty() {
                None
            } else {
                Some(file.classes.len() - 1)
            }
        }
    }
}

/// The file of a text and the classes of its tree, with the class that is chosen by its name, or the last one without a
/// name, and the classes that are reached from it. The error is the first broken rule of N1 and N2 with its place, or that
/// memory was refused.
pub fn names<'a>(
    alloc: Global,
    text: &'a [u8],
    classes: &'a [ClassDef],
    class: Option<&[u8]>,
) -> Result<Named<'a>, RuleEnd>
    requires { length text.now < 2 ^ 32 }
    ensures { stage.Names text.now classes.now (relation.chosen_by text.now classes.now (option_map (λ name. name.now) class.entry)) result }
{
    let Opened { file, repeated } = File::open(alloc, text, classes)?;
    let root = match chosen(&file, class) {
        Some(root) => root,
        None => return Err(RuleEnd::Broken(NameCode::N1, text.len() as u32)),
    };
    let reached = reached(alloc, &file, root)?;
    match all_unknown_types(&file, reached.as_slice()) {
        Some(at) => return Err(RuleEnd::Broken(NameCode::N1, at)),
        None => {}
    }
    let second = all_repeated_elements(alloc, &file, reached.as_slice())?;
    match lesser(repeated, second) {
        Some(at) => Err(RuleEnd::Broken(NameCode::N2, at)),
        None => Ok(Named {
            file,
            chosen: root,
            reached,
        }),
    }
}
