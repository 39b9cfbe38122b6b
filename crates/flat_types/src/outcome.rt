//! What a node of an equation is.
ghost use Rattle.std.specs.Prelude.{◌≡◌};
ghost use Rattle.flat_types.specs.Outcomes as spec;

use crate::ends::TypeCode;
use crate::named::{clock_named, kind_of_name, read_as};
use flat_model::{ClockExpr, Expr, FlatName, NameKind};

/// What a node of an equation is, once its parts are read.
pub enum Outcome {
    /// A name, of whatever kind.
    Name(u32),
    /// An expression with its type.
    Valued(Expr, NameKind),
    Clocked(ClockExpr),
    /// The first rule that is broken up to the node.
    Broken(TypeCode),
}

impl Drop for Outcome {
    /// Written out, so that where an outcome is dropped there is one call, and not a match over all expressions.
    fn drop(self) {
        match self {
            Outcome::Name(_) => {}
            Outcome::Valued(expr, _) => drop(expr),
            Outcome::Clocked(clock) => drop(clock),
            Outcome::Broken(_) => {}
        }
    }
}

impl Outcome {
    /// A part as an expression with its type.
    pub fn into_value(self, names: &[FlatName]) -> Option<(Expr, NameKind)>
        ensures { result ≡ spec.as_value names.now self }
    {
        match self {
            Outcome::Name(x) => read_as(x, kind_of_name(names, x)),
            Outcome::Valued(expr, kind) => Some((expr, kind)),
            Outcome::Clocked(clock) => {
                drop(clock);
                None
            }
            Outcome::Broken(_) => None,
        }
    }

    /// A part as a clock.
    pub fn into_clock(self, names: &[FlatName]) -> Option<ClockExpr>
        ensures { result ≡ spec.as_clock names.now self }
    {
        match self {
            Outcome::Name(x) => clock_named(x, kind_of_name(names, x)),
            Outcome::Valued(expr, _) => {
                drop(expr);
                None
            }
            Outcome::Clocked(clock) => Some(clock),
            Outcome::Broken(_) => None,
        }
    }
}
