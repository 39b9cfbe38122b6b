//! How deep the components of classes stand.
ghost use Rattle.std.specs.Prelude.{◌≡◌, ◌<◌, IfOk, length, Some};
ghost use Rattle.class_scopes.specs.Faults.{IsFirstPlace};
ghost use Rattle.class_scopes.specs.Reached.{AreReached};
ghost use Rattle.class_order.specs.N11 as N11;
ghost use Rattle.class_order.specs.Orders.{ArePartsFirst};
ghost use Rattle.class_order.specs.private.Depths as meaning;

use crate::ranks::name_at;
use class_scopes::{File, Named, TypeName};
use mo_parser::Element;
use std::alloc::{AllocError, Global};

/// The depth that no component may have.
const TOO_DEEP: usize = 33;

/// The depth down to which a class has components; 0 where it is not found yet.
fn depth_of(depths: &[usize], class: usize) -> usize
    ensures { result ≡ meaning.depth_of depths.now class }
{
    match depths.get(class) {
        Some(depth) => *depth,
        None => 0,
    }
}

/// The depth down to which a component has components, itself among them; not more than the depth that none may have.
fn depth_in(file: &File<'_>, depths: &[usize], element: &Element) -> usize
    ensures { result ≡ meaning.depth_in file.now.text.now file.now.classes.now depths.now element.now }
{
    match file.type_of(&element.base) {
        Some(TypeName::Class(part)) => depth_of(depths, part).min(TOO_DEEP - 1) + 1,
        _ => 1,
    }
}

/// The depth down to which a class has components, from those of its parts.
fn deepest(file: &File<'_>, depths: &[usize], class: usize) -> usize
    ensures { result ≡ meaning.deepest file.now.text.now file.now.classes.now depths.now class }
{
    let mut deepest = 0;
    for element in file.elements_of(class) {
        deepest = depth_in(file, depths, element).max(deepest);
    }
    deepest
}

/// The depths down to which the classes have components.
fn depths(alloc: Global, named: &Named<'_>, order: &[usize]) -> Result<Vec<usize>, AllocError>
    requires reached { AreReached named.now.file.text.now named.now.file.classes.now named.now.chosen named.now.reached.items }
    requires order { ArePartsFirst named.now.file.text.now named.now.file.classes.now named.now.chosen order.now }
    ensures { IfOk result (λ depths. meaning.AreDepths named.now.file.text.now named.now.file.classes.now order.now (length order.now) depths.items) }
{
    let mut depths = vec![in alloc; 0; named.file.classes.len()]?;
    for class in order {
        let depth = deepest(&named.file, depths.as_slice(), *class);
        depths[*class] = depth;
    }
    Ok(depths)
}

/// The place where N11 is broken, the name of the chosen class: it has a component at depth 33 or more. The order is one of
/// `class_order`. Memory that is refused is the only error.
pub fn too_deep(
    alloc: Global,
    named: &Named<'_>,
    order: &[usize],
) -> Result<Option<u32>, AllocError>
    requires reached { AreReached named.now.file.text.now named.now.file.classes.now named.now.chosen named.now.reached.items }
    requires order { ArePartsFirst named.now.file.text.now named.now.file.classes.now named.now.chosen order.now }
    ensures { IfOk result (λ place. IsFirstPlace (N11.Breaks named.now.file.text.now named.now.file.classes.now (Some named.now.chosen)) place) }
{
    let depths = depths(alloc, named, order)?;
    if depth_of(depths.as_slice(), named.chosen) < TOO_DEEP {
        Ok(None)
    } else {
        Ok(Some(name_at(&named.file, named.chosen)))
    }
}
