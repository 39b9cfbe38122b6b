//! Classes that have something of their own.
ghost use Rattle.std.specs.Prelude.{◌≡◌, ℕ, IfOk, map};
ghost use Rattle.std.specs.List.{list_any};
ghost use Rattle.mo_order.specs.Marks.{is_marked};
ghost use Rattle.class_scopes.specs.Spelled.{spelled};
ghost use Rattle.class_sizes.specs.Owners as owning;

use crate::equations::equations_of;
use mo_parser::{Path, TreeEq};
use scope_names::Scopes;
use std::alloc::{AllocError, Global};

/// Whether a connector has a member; a short one is its own.
fn has_members(scopes: &Scopes<'_>, connector: usize) -> bool
    ensures { result ≡ owning.has_members scopes.now.named.file.text.now scopes.now.named.file.classes.now connector }
{
    scopes.named.file.short_of(connector).is_some()
        || !scopes.named.file.elements_of(connector).is_empty()
}

/// Whether a connect joins a member of the connector that its first argument leads to.
fn joins(scopes: &Scopes<'_>, class: usize, path: &Path) -> bool
    ensures { result ≡ owning.joins scopes.now.named.file.text.now scopes.now.named.file.classes.now class path.now }
{
    match scopes.element_along(path.parts.as_slice(), class) {
        Some(element) => match scopes.class_of(element) {
            Some(connector) => has_members(scopes, connector),
            None => false,
        },
        None => false,
    }
}

/// Whether an equation stands inside a clause by itself.
fn is_equal(equation: &TreeEq) -> bool
    ensures { result ≡ owning.is_equal equation.now }
{
    match equation {
        TreeEq::Equal(_, _) => true,
        TreeEq::Connect(_, _) => false,
        TreeEq::When(_, _) => false,
    }
}

/// Whether a clause has an equation.
fn any_equal(inside: &[TreeEq]) -> bool
    ensures { result ≡ list_any owning.is_equal inside.now }
{
    for equation in inside {
        if is_equal(equation) {
            return true;
        }
    }
    false
}

/// Whether an equation of a class gives something.
fn gives(scopes: &Scopes<'_>, class: usize, equation: &TreeEq) -> bool
    ensures { result ≡ owning.gives scopes.now.named.file.text.now scopes.now.named.file.classes.now class equation.now }
{
    match equation {
        TreeEq::Equal(_, _) => true,
        TreeEq::Connect(first, _) => joins(scopes, class, first),
        TreeEq::When(_, inside) => any_equal(inside.as_slice()),
    }
}

/// Whether one of several equations of a class gives something.
fn any_gives(scopes: &Scopes<'_>, class: usize, equations: &[TreeEq]) -> bool
    ensures { result ≡ list_any (owning.gives scopes.now.named.file.text.now scopes.now.named.file.classes.now class) equations.now }
{
    for equation in equations {
        if gives(scopes, class, equation) {
            return true;
        }
    }
    false
}

/// For each class of the file, whether its own equations give something: an equation, one inside a clause, or a connect of
/// connectors with members. Memory that is refused is the only error.
pub fn owners(alloc: Global, scopes: &Scopes<'_>) -> Result<Vec<bool>, AllocError>
    ensures { IfOk result (λ marks. (class : ℕ) → is_marked marks.items class ≡ owning.has_own scopes.now.named.file.text.now scopes.now.named.file.classes.now class) }
{
    let mut marks = Vec::new(alloc);
    for class in 0..scopes.named.file.classes.len() {
        let mark = any_gives(scopes, class, equations_of(&scopes.named.file, class));
        marks.push(mark)?;
    }
    Ok(marks)
}
