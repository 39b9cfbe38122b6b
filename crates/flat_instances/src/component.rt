//! Components of an instance, with the modifications that are in force there.
ghost use Rattle.std.specs.Prelude.{◌≡◌, ℕ, [], ◌∷◌, ◌++◌, IfOk, List};
ghost use Rattle.class_scopes.specs.Spelled.{spelled};
ghost use Rattle.flat_instances.specs.Instances as instances;
ghost use Rattle.flat_instances.specs.Kept as kept;
ghost use Rattle.flat_instances.specs.Force as force;

use crate::item::Variable;
use crate::modifier::{Modifier, given_to, own};
use crate::modifiers::Modifiers;
use class_scopes::{File, TypeName};
use mo_parser::{Element, spelled};
use std::alloc::{AllocError, Global};
use sync_values::Text;

/// What stands before a name, and the name.
fn named(alloc: Global, scope: &[u8], name: &[u8]) -> Result<Vec<u8>, AllocError>
    ensures { IfOk result (λ v. v.items ≡ scope.now ++ name.now) }
{
    let mut whole = Vec::from_slice(alloc, scope)?;
    whole.extend_from_slice(name)?;
    Ok(whole)
}

/// The modifiers of a component, the outermost ones first and its own last.
fn modifiers_of<'a>(
    alloc: Global,
    text: &[u8],
    scope: &[u8],
    modifiers: &Modifiers<'a>,
    element: &'a Element,
) -> Result<Vec<Modifier<'a>>, AllocError>
    ensures { IfOk result (λ list. (path : List instances.Step) → force.AreInForce text.now scope.now path modifiers.now → force.GiveOutermost text.now scope.now (force.stepped scope.now path element.now) list.items) }
{
    let name = spelled(text, element.name);
    let list = modifiers.of_part(alloc, name, own(scope.len(), element))?;
    Ok(list)
}

/// What stands before the names inside a component, and the modifications that are in force there, where those are that are
/// in force beside it. Memory that is refused is the only error.
pub fn inside<'a>(
    alloc: Global,
    file: &File<'a>,
    scope: &[u8],
    modifiers: &Modifiers<'a>,
    element: &'a Element,
) -> Result<(Vec<u8>, Modifiers<'a>), AllocError>
    ensures scope { IfOk result (λ inner. inner.0.items ≡ (scope.now ++ spelled file.now.text.now element.now.name) ++ 46 ∷ []) }
    ensures force { IfOk result (λ inner. (path : List instances.Step) → force.AreInForce file.now.text.now scope.now path modifiers.now → force.AreInForce file.now.text.now inner.0.items (force.stepped scope.now path element.now) inner.1) }
{
    let mut inner = named(alloc, scope, spelled(file.text, element.name))?;
    inner.push(b'.')?;
    let list = modifiers_of(alloc, file.text, scope, modifiers, element)?;
    let modifiers = Modifiers::by_parts(alloc, file.text, list.as_slice())?;
    Ok((inner, modifiers))
}

/// The variable that a component is, with what the modifications that are in force beside it and its own give to its binding
/// and its start. Memory that is refused is the only error.
pub fn variable<'a>(
    alloc: Global,
    file: &File<'a>,
    scope: &[u8],
    modifiers: &Modifiers<'a>,
    element: &'a Element,
    type_name: TypeName,
) -> Result<Variable<'a>, AllocError>
    ensures { IfOk result (λ variable. (path : List instances.Step) → force.AreInForce file.now.text.now scope.now path modifiers.now → kept.seen_variable file.now.text.now file.now.classes.now variable ≡ instances.variable file.now.text.now file.now.classes.now (scope.now ++ spelled file.now.text.now element.now.name) type_name element.now (force.stepped scope.now path element.now)) }
{
    let name = named(alloc, scope, spelled(file.text, element.name))?;
    let name = Text::from_bytes(alloc, name.as_slice())?;
    let list = modifiers_of(alloc, file.text, scope, modifiers, element)?;
    let start = [b"start".as_slice()];
    Ok(Variable {
        name,
        element,
        type_name,
        binding: given_to(file.text, list.as_slice(), [].as_slice()),
        start: given_to(file.text, list.as_slice(), start.as_slice()),
    })
}
