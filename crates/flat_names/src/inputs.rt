//! Which variables have the prefix `input`.
ghost use Rattle.std.specs.Prelude.{◌≡◌};
ghost use Rattle.flat_answer.specs.Inputs as inputs;
ghost use Rattle.flat_instances.specs.Kept as kept;

use class_scopes::{File, TypeName};
use flat_instances::Variable;
use flat_model::NameKind;
use mo_parser::Causality;

/// Whether a prefix is `input`.
fn is_input(causality: Causality) -> bool
    ensures { result ≡ inputs.is_input causality }
{
    match causality {
        Causality::Input => true,
        Causality::Plain => false,
        Causality::Output => false,
    }
}

/// Whether a short connector has the prefix `input`.
fn type_is_input(file: &File<'_>, type_name: TypeName) -> bool
    ensures { result ≡ inputs.type_is_input file.now.text.now file.now.classes.now type_name }
{
    match type_name {
        TypeName::Class(class) => match file.short_of(class) {
            Some(short) => is_input(short.causality),
            None => false,
        },
        _ => false,
    }
}

/// Whether a variable has the prefix `input`, in its declaration or in the short connector that it names.
pub fn has_input(file: &File<'_>, variable: &Variable<'_>) -> bool
    ensures { result ≡ inputs.has_input file.now.text.now file.now.classes.now (kept.seen_variable file.now.text.now file.now.classes.now variable.now) }
{
    is_input(variable.element.causality) || type_is_input(file, variable.type_name)
}

/// Whether a name of a type has values, so that it can be an input.
pub fn is_valued(kind: NameKind) -> bool
    ensures { result ≡ inputs.is_valued kind }
{
    match kind {
        NameKind::Integer => true,
        NameKind::Boolean => true,
        NameKind::Clock => false,
    }
}
