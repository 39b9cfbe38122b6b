ghost use Rattle.std.specs.Prelude.{◌≡◌, ◌≤◌};
ghost use Rattle.stress_sums.specs.Sums.{filled, number};

use sync_values::Value;

/// What the rows of a run add up to so far.
#[derive(Clone, Copy, Debug, PartialEq, Eq)]
pub struct Sums {
    /// How many rows there are.
    pub rows: u64,
    /// How many of their cells have a value; that of the instant is none of them.
    pub values: u64,
    /// The sum of the Integers among these values.
    pub sum: i128,
}

/// How many values a cell has.
fn filled(cell: Option<Value>) -> u64
    ensures filled { result ≡ filled cell }
    ensures one { result ≤ 1 }
{
    match cell {
        Some(_) => 1,
        None => 0,
    }
}

/// The Integer of a cell; a Boolean and an empty cell add nothing.
fn number(cell: Option<Value>) -> i64
    ensures { result ≡ number cell }
{
    match cell {
        Some(Value::Int(number)) => number,
        _ => 0,
    }
}

impl Sums {
    ghost use Rattle.std.specs.Prelude.{◌≡◌, ◌<◌, ◌≤◌, ◌^◌, length};
    ghost use Rattle.stress_sums.specs.Sums.{AreBounded, no_sums, with_row};

    /// Before the first row.
    pub fn none() -> Sums
        ensures sums { result ≡ no_sums }
        ensures bounded { AreBounded result }
    {
        Sums {
            rows: 0,
            values: 0,
            sum: 0,
        }
    }

    /// One row more.
    pub fn with_row(self, row: &[Option<Value>]) -> Sums
        requires rows { self.rows < 2 ^ 32 }
        requires few { length row.now ≤ 2 ^ 16 }
        requires bounded { AreBounded self }
        ensures sums { result ≡ with_row self row.now }
        ensures bounded { AreBounded result }
    {
        let mut values = self.values;
        let mut sum = self.sum;
        for cell in row {
            values += filled(*cell);
            sum += i128::from(number(*cell));
        }
        Sums {
            rows: self.rows + 1,
            values,
            sum,
        }
    }
}
