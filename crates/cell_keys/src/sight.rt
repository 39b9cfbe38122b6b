ghost use Rattle.std.specs.Prelude.{◌≡◌};
ghost use Rattle.sync_values.specs.Relation.{rank};

use sync_values::Value;

/// From where names are seen: from the moment, from the moment before, or from an earlier one.
#[derive(Clone, Copy)]
pub enum Sight {
    Now,
    Left,
    Far,
}

/// The word of a value: an Integer itself, a Boolean as 0 or 1.
pub fn word_of(value: Value) -> i64
    ensures { result ≡ rank value }
{
    match value {
        Value::Int(number) => number,
        Value::Bool(false) => 0,
        Value::Bool(true) => 1,
    }
}
