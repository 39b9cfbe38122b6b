ghost use Rattle.std.specs.Prelude.{◌≡◌};
ghost use Rattle.sync_values.specs.Relation.{AreAlike, rank, related};

use crate::value::{Rel, Value};

/// The place of a value among those of its kind, with false below true.
fn rank_of(value: Value) -> i64
    ensures { result ≡ rank value }
{
    match value {
        Value::Int(number) => number,
        Value::Bool(false) => 0,
        Value::Bool(true) => 1,
    }
}

/// Whether a relation holds between two Integers or two Booleans, with false below true.
///
/// Source: MLS 3.6, chapter 3, "Equality, Relational, and Logical Operators".
pub fn relate(rel: Rel, a: Value, b: Value) -> bool
    requires { AreAlike a b }
    ensures { result ≡ related rel a b }
{
    let (x, y) = (rank_of(a), rank_of(b));
    match rel {
        Rel::Less => x < y,
        Rel::LessEq => x <= y,
        Rel::Greater => y < x,
        Rel::GreaterEq => y <= x,
        Rel::Equal => x == y,
        Rel::Unequal => x != y,
    }
}
