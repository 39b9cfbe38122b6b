//! The classes that a chosen class is made of.
ghost use Rattle.std.specs.Prelude.{◌≡◌, ℕ, ◌<◌, ◌++◌, IfOk, OnOk, OnErr, length, Some};
ghost use Rattle.class_scopes.specs.private.Reaching as reaching;
ghost use Rattle.class_scopes.specs.Reached as relation;
ghost use Rattle.class_scopes.specs.Types as types;

use crate::file::File;
use crate::type_name::TypeName;
use mo_parser::Element;
use std::alloc::{AllocError, Global};

/// Adds a class that is not marked yet, and marks it.
fn mark(class: usize, seen: &mut Vec<bool>, reached: &mut Vec<usize>) -> Result<(), AllocError>
    requires { class < length seen.old.items }
    ensures { OnOk result (reaching.Marks class seen.old.items reached.old.items seen.new.items reached.new.items) }
{
    if !seen[class] {
        seen[class] = true;
        reached.push(class)?;
    }
    Ok(())
}

/// Adds the class of a component.
fn mark_part(
    file: &File<'_>,
    chosen: usize,
    element: &Element,
    seen: &mut Vec<bool>,
    reached: &mut Vec<usize>,
) -> Result<(), AllocError>
    requires listed { reaching.AreListed file.now.text.now file.now.classes.now chosen seen.old.items reached.old.items }
    requires part { reaching.PartReached file.now.text.now file.now.classes.now chosen element.now }
    ensures grows { OnOk result (reaching.Grows file.now.text.now file.now.classes.now chosen seen.old.items reached.old.items seen.new.items reached.new.items) }
    ensures marked { OnOk result (reaching.PartMarked file.now.text.now file.now.classes.now element.now seen.new.items) }
{
    match file.type_of(&element.base) {
        Some(TypeName::Class(part)) => mark(part, seen, reached),
        _ => Ok(()),
    }
}

/// Adds the classes of the components of a class.
fn mark_parts(
    file: &File<'_>,
    chosen: usize,
    class: usize,
    seen: &mut Vec<bool>,
    reached: &mut Vec<usize>,
) -> Result<(), AllocError>
    requires listed { reaching.AreListed file.now.text.now file.now.classes.now chosen seen.old.items reached.old.items }
    requires own { relation.IsReached file.now.text.now file.now.classes.now chosen class }
    ensures grows { OnOk result (reaching.Grows file.now.text.now file.now.classes.now chosen seen.old.items reached.old.items seen.new.items reached.new.items) }
    ensures parts { OnOk result (reaching.PartsMarked file.now.text.now file.now.classes.now (types.elements_of file.now.text.now file.now.classes.now class) (length (types.elements_of file.now.text.now file.now.classes.now class)) seen.new.items) }
{
    for element in file.elements_of(class) {
        mark_part(file, chosen, element, seen, reached)?;
    }
    Ok(())
}

/// The reached classes, each once, the chosen one first.
pub fn reached(alloc: Global, file: &File<'_>, chosen: usize) -> Result<Vec<usize>, AllocError>
    requires { chosen < length file.now.classes.now }
    ensures { IfOk result (λ reached. relation.AreReached file.now.text.now file.now.classes.now chosen reached.items) }
{
    let mut seen = vec![in alloc; false; file.classes.len()]?;
    let mut reached = Vec::new(alloc);
    mark(chosen, &mut seen, &mut reached)?;
    for turn in 0..file.classes.len() {
        if turn >= reached.len() {
            return Ok(reached);
        }
        let class = reached[turn];
        mark_parts(file, chosen, class, &mut seen, &mut reached)?;
    }
    Ok(reached)
}
