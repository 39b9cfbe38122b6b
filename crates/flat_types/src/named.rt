//! Names as parts of an expression, and as arguments.
ghost use Rattle.std.specs.Prelude.{◌≡◌};
ghost use Rattle.flat_model.specs.Arguments.{is_input};
ghost use Rattle.flat_types.specs.Outcomes as spec;

use crate::ends::TypeCode;
use crate::outcome::Outcome;
use flat_model::{ClockExpr, Expr, FlatName, NameKind};

/// The kind of a name.
pub fn kind_of_name(names: &[FlatName], x: u32) -> Option<NameKind>
    ensures { result ≡ spec.kind_of_name names.now x }
{
    Some(names.get(x as usize)?.kind)
}

/// Whether a name is an input.
fn is_input(names: &[FlatName], x: u32) -> bool
    ensures { result ≡ is_input names.now x }
{
    match names.get(x as usize) {
        Some(name) => name.input,
        None => false,
    }
}

/// The type of a part, where it is an expression.
pub fn type_of_part(names: &[FlatName], part: &Outcome) -> Option<NameKind>
    ensures { result ≡ spec.type_of_part names.now part.now }
{
    match part {
        Outcome::Name(x) => match kind_of_name(names, *x)? {
            NameKind::Clock => None,
            kind => Some(kind),
        },
        Outcome::Valued(_, kind) => Some(*kind),
        _ => None,
    }
}

/// A name that stands bare.
pub fn read_as(x: u32, kind: Option<NameKind>) -> Option<(Expr, NameKind)>
    ensures { result ≡ spec.read_as x kind }
{
    match kind? {
        NameKind::Integer => Some((Expr::Read(x), NameKind::Integer)),
        NameKind::Boolean => Some((Expr::Read(x), NameKind::Boolean)),
        NameKind::Clock => None,
    }
}

/// A Clock name as a clock.
pub fn clock_named(x: u32, kind: Option<NameKind>) -> Option<ClockExpr>
    ensures { result ≡ spec.clock_named x kind }
{
    match kind? {
        NameKind::Clock => Some(ClockExpr::Name(x)),
        _ => None,
    }
}

/// A name as an argument, which is told apart from what is no name, and from an input where that is refused.
pub fn component(names: &[FlatName], refuses_input: bool, part: &Outcome) -> Result<u32, TypeCode>
    ensures { result ≡ spec.component names.now refuses_input part.now }
{
    match part {
        Outcome::Name(x) => {
            if refuses_input && is_input(names, *x) {
                Err(TypeCode::Y2)
            } else {
                Ok(*x)
            }
        }
        _ => Err(TypeCode::Y2),
    }
}
