//! Pieces of a line, for which there is room.
ghost use Rattle.std.specs.Prelude.{◌≡◌, ◌+◌, ◌≤◌, ◌++◌, length, vec_len, vec_capacity};
ghost use Rattle.std.specs.Fmt.{signed_decimal};
ghost use Rattle.rational_time.specs.Fraction.{instant_text};
ghost use Rattle.flat_model.specs.Trace.{cell_text, value_text};

use itoa::Buffer;
use rational_time::Ratio;
use sync_values::Value;

pub(crate) fn add(line: &mut Vec<u8>, piece: &[u8])
    requires { vec_len line.old + length piece.now ≤ vec_capacity line.old }
    ensures text { line.new.items ≡ line.old.items ++ piece.now }
    ensures len { vec_len line.new ≡ vec_len line.old + length piece.now }
    ensures room { vec_capacity line.new ≡ vec_capacity line.old }
{
    for byte in piece {
        line.push_reserved(*byte);
    }
}

fn add_number(line: &mut Vec<u8>, number: i64)
    requires { vec_len line.old + 20 ≤ vec_capacity line.old }
    ensures text { line.new.items ≡ line.old.items ++ signed_decimal number }
    ensures len { vec_len line.new ≤ vec_len line.old + 20 }
    ensures room { vec_capacity line.new ≡ vec_capacity line.old }
{
    let mut buffer = Buffer::new();
    add(line, buffer.format(number).as_bytes());
}

fn add_value(line: &mut Vec<u8>, value: Value)
    requires { vec_len line.old + 20 ≤ vec_capacity line.old }
    ensures text { line.new.items ≡ line.old.items ++ value_text value }
    ensures len { vec_len line.new ≤ vec_len line.old + 20 }
    ensures room { vec_capacity line.new ≡ vec_capacity line.old }
{
    match value {
        Value::Int(number) => add_number(line, number),
        Value::Bool(true) => add(line, b"true"),
        Value::Bool(false) => add(line, b"false"),
    }
}

/// Adds the value of a name, or nothing where it has none.
pub(crate) fn add_cell(line: &mut Vec<u8>, cell: Option<Value>)
    requires { vec_len line.old + 20 ≤ vec_capacity line.old }
    ensures text { line.new.items ≡ line.old.items ++ cell_text cell }
    ensures len { vec_len line.new ≤ vec_len line.old + 20 }
    ensures room { vec_capacity line.new ≡ vec_capacity line.old }
{
    if let Some(value) = cell {
        add_value(line, value);
    }
}

pub(crate) fn add_instant(line: &mut Vec<u8>, at: Ratio)
    requires { vec_len line.old + 41 ≤ vec_capacity line.old }
    ensures text { line.new.items ≡ line.old.items ++ instant_text at }
    ensures len { vec_len line.new ≤ vec_len line.old + 41 }
    ensures room { vec_capacity line.new ≡ vec_capacity line.old }
{
    let mut num = Buffer::new();
    add(line, num.format(at.num()).as_bytes());
    if at.den() != 1 {
        add(line, b"/");
        let mut den = Buffer::new();
        add(line, den.format(at.den()).as_bytes());
    }
}
