//! Classes whose instances have something in them.
ghost use Rattle.std.specs.Prelude.{◌≡◌, ◌<◌, ◌||◌, IfOk, length};
ghost use Rattle.std.specs.List.{list_any};
ghost use Rattle.mo_order.specs.Marks.{is_marked};
ghost use Rattle.class_scopes.specs.Reached.{AreReached};
ghost use Rattle.class_scopes.specs.Types.{elements_of};
ghost use Rattle.class_order.specs.Content as content;
ghost use Rattle.class_order.specs.Orders.{ArePartsFirst};
ghost use Rattle.class_order.specs.private.Contents as meaning;

use class_scopes::{File, Named, TypeName};
use mo_parser::Element;
use std::alloc::{AllocError, Global};

/// Whether a class is marked.
fn is_marked(marks: &[bool], class: usize) -> bool
    ensures { result ≡ is_marked marks.now class }
{
    match marks.get(class) {
        Some(mark) => *mark,
        None => false,
    }
}

/// Whether a component is a variable, or of a class that has something in it.
fn has_content(file: &File<'_>, marks: &[bool], element: &Element) -> bool
    ensures { result ≡ meaning.has_content file.now.text.now file.now.classes.now marks.now element.now }
{
    match file.type_of(&element.base) {
        Some(TypeName::Class(part)) => {
            file.is_simple(TypeName::Class(part)) || is_marked(marks, part)
        }
        Some(type_name) => file.is_simple(type_name),
        None => false,
    }
}

/// Whether a component of a class has something in it.
fn any_content(file: &File<'_>, marks: &[bool], class: usize) -> bool
    ensures { result ≡ list_any (meaning.has_content file.now.text.now file.now.classes.now marks.now) (elements_of file.now.text.now file.now.classes.now class) }
{
    for element in file.elements_of(class) {
        if has_content(file, marks, element) {
            return true;
        }
    }
    false
}

/// Whether a class has something of its own, or in a component.
fn is_filled(file: &File<'_>, own: &[bool], marks: &[bool], class: usize) -> bool
    ensures { result ≡ meaning.is_filled file.now.text.now file.now.classes.now own.now marks.now class }
{
    is_marked(own, class) || any_content(file, marks, class)
}

/// For each class of the file, whether its instances have something in them, where it is reached: a variable, or what
/// `own` says of a class itself, its equations. The order is one of `class_order`. Memory that is refused is the only error.
pub fn filled(
    alloc: Global,
    named: &Named<'_>,
    order: &[usize],
    own: &[bool],
) -> Result<Vec<bool>, AllocError>
    requires reached { AreReached named.now.file.text.now named.now.file.classes.now named.now.chosen named.now.reached.items }
    requires order { ArePartsFirst named.now.file.text.now named.now.file.classes.now named.now.chosen order.now }
    ensures { IfOk result (λ marks. content.AreFilled named.now.file.text.now named.now.file.classes.now named.now.chosen own.now marks.items) }
{
    let mut marks = vec![in alloc; false; named.file.classes.len()]?;
    for class in order {
        let mark = is_filled(&named.file, own, marks.as_slice(), *class);
        marks[*class] = mark;
    }
    Ok(marks)
}
