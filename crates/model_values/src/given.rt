//! What is given to a variable.
ghost use Rattle.std.specs.Prelude.{◌≡◌, IfOk, option_map, take};
ghost use Rattle.flat_instances.specs.Kept as kept;
ghost use Rattle.parameter_values.specs.Values as values;
ghost use Rattle.parameter_values.specs.Givens as givens;
ghost use Rattle.value_rules.specs.Needs as wanted;

use class_scopes::File;
use flat_instances::{Given, Variable, start_of};
use flat_model::NameKind;
use mo_parser::Variability;
use parameter_values::Parameter;
use std::alloc::{AllocError, Global};
use sync_values::Text;
use value_rules::Needs;

/// Whether a component is a parameter or constant.
pub fn is_fixed(variability: Variability) -> bool
    ensures { result ≡ values.is_fixed variability }
{
    match variability {
        Variability::Plain => false,
        Variability::Parameter => true,
        Variability::Constant => true,
    }
}

/// So many of the first bytes, or all where they are fewer.
fn front(bytes: &[u8], count: usize) -> &[u8]
    ensures { result.now ≡ take count bytes.now }
{
    if count <= bytes.len() {
        &bytes[..count]
    } else {
        bytes
    }
}

/// The expression of a parameter's value.
fn value_of<'a>(file: &'a File<'a>, variable: &Variable<'a>) -> Option<Given<'a>>
    ensures { option_map (kept.placed_in variable.now.name) result ≡ values.value_expr file.now.text.now file.now.classes.now (kept.seen_variable file.now.text.now file.now.classes.now variable.now) }
{
    match variable.binding {
        Some(given) => Some(given),
        None => start_of(file, variable),
    }
}

/// A value of a type that an expression gives to a variable of a name.
fn valued<'a>(
    alloc: Global,
    kind: Option<NameKind>,
    name: &[u8],
    given: Option<Given<'a>>,
) -> Result<Parameter<'a>, AllocError>
    ensures { IfOk result (λ parameter. givens.valued parameter ≡ (kind, option_map (kept.placed_in name.now) given.entry)) }
{
    match given {
        Some(given) => {
            let scope = Text::from_bytes(alloc, front(name, given.scope))?;
            Ok(Parameter {
                kind,
                scope,
                expr: Some(given.expr),
            })
        }
        None => {
            let scope = Text::from_bytes(alloc, b"".as_slice())?;
            Ok(Parameter {
                kind,
                scope,
                expr: None,
            })
        }
    }
}

/// The parameter that a variable is.
pub fn parameter_of<'a>(
    alloc: Global,
    file: &'a File<'a>,
    variable: &Variable<'a>,
) -> Result<Parameter<'a>, AllocError>
    ensures { IfOk result (λ parameter. givens.valued parameter ≡ givens.valued_of file.now.text.now file.now.classes.now (kept.seen_variable file.now.text.now file.now.classes.now variable.now)) }
{
    let given = value_of(file, variable);
    let kind = file.kind_of(variable.type_name);
    valued(alloc, kind, variable.name.as_bytes(), given)
}

/// The expression of a variable's own value, where it is a parameter or constant.
fn own_of<'a>(file: &'a File<'a>, variable: &Variable<'a>) -> Option<Given<'a>>
    ensures { option_map (kept.placed_in variable.now.name) result ≡ wanted.own_expr file.now.text.now file.now.classes.now (kept.seen_variable file.now.text.now file.now.classes.now variable.now) }
{
    if is_fixed(variable.element.variability) {
        value_of(file, variable)
    } else {
        None
    }
}

/// What a variable needs.
pub fn needs_of<'a>(
    alloc: Global,
    file: &'a File<'a>,
    variable: &Variable<'a>,
) -> Result<Needs<'a>, AllocError>
    ensures { IfOk result (λ needs. wanted.needed needs ≡ wanted.needs_of file.now.text.now file.now.classes.now (kept.seen_variable file.now.text.now file.now.classes.now variable.now)) }
{
    let kind = file.kind_of(variable.type_name);
    let given = own_of(file, variable);
    let own = valued(alloc, kind, variable.name.as_bytes(), given)?;
    let given = start_of(file, variable);
    let start = valued(alloc, kind, variable.name.as_bytes(), given)?;
    Ok(Needs { own, start })
}
