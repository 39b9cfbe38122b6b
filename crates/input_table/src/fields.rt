ghost use Rattle.std.specs.Prelude.{◌≡◌, ◌↔◌, ◌++◌, ◌^◌, ◌<◌, ◌≤◌, ℕ, List, IsTrue, IfSome, MatchOption, codes, length, pos, neg_ℤ, if◌then◌else◌};
ghost use Rattle.rational_time.specs.declared.ratio.Ratio.{Ratio};
ghost use Rattle.sync_values.specs.declared.value.Value.{Value};
ghost use Rattle.input_table.specs.Fields.{without_first_blanks, without_last_blanks, trimmed, text_in, IsTimeText, IsValue};
ghost use Rattle.flat_model.specs.Tables.{IsTime};
ghost use Rattle.input_table.specs.Rows.{IsInstant, IsCell, IsSum};
ghost use Rattle.csv.specs.Records.{fields_of};
ghost use Rattle.std.specs.Str.Parse.{AllDigits, digits_value};

use crate::header::Form;
use csv::ByteRecord;
use flat_model::NameKind;
use rational_time::{Ratio, plus};
use std::str;
use sync_values::Value;

/// A field without the blanks at its front.
fn without_front(field: &[u8]) -> &[u8]
    ensures { result.now ≡ without_first_blanks field.now }
{
    let mut rest = field;
    while let [first, others @ ..] = rest {
        if *first != b' ' && *first != b'\t' {
            break;
        }
        rest = others;
    }
    rest
}

/// A field without the blanks at its end.
fn without_end(field: &[u8]) -> &[u8]
    ensures { result.now ≡ without_last_blanks field.now }
{
    let mut rest = field;
    while let [others @ .., last] = rest {
        if *last != b' ' && *last != b'\t' {
            break;
        }
        rest = others;
    }
    rest
}

/// The text in a column of a record, counted from 0, without its blanks; the empty text where there is none.
pub(crate) fn text_in(row: &ByteRecord, column: usize) -> &[u8]
    ensures { result.now ≡ text_in (fields_of row.now) column }
{
    match row.get(column) {
        Some(field) => without_end(without_front(field)),
        None => b"".as_slice(),
    }
}

/// Whether an instant is one that a table may have.
fn is_in_range(time: Ratio) -> bool
    ensures { IsTrue result ↔ IsTime time }
{
    u128::from(time.num()) < u128::from(time.den()) << 20 && time.den() < 1 << 32
}

/// The instant that a text writes, if a table may have it.
fn time_of(text: &[u8]) -> Option<Ratio>
    ensures { MatchOption result ((t : Ratio) → IsTimeText text.now t → ⊥) (IsTimeText text.now) }
{
    match rational_time::read(text) {
        Err(_) => None,
        Ok(time) => { if is_in_range(time) { Some(time) } else { None } }
    }
}

/// The sum of an instant and the one of the row before. There is always one where a table may have it.
fn sum_of(before: Option<Ratio>, more: Ratio) -> Option<Ratio>
    requires more { IsTime more }
    requires before { IfSome before IsTime }
    ensures { MatchOption result ((t : Ratio) → IsSum before more t → IsTime t → ⊥) (IsSum before more) }
{
    match before {
        Some(before) => plus(before, more),
        None => Some(more),
    }
}

/// The sum of an instant and the one of the row before, if a table may have it.
fn later_by(before: Option<Ratio>, more: Ratio) -> Option<Ratio>
    requires more { IsTime more }
    requires before { IfSome before IsTime }
    ensures { MatchOption result
        ((t : Ratio) → IsSum before more t → IsTime t → ⊥)
        (λ t. IsSum before more t × IsTime t) }
{
    match sum_of(before, more) {
        None => None,
        Some(sum) => { if is_in_range(sum) { Some(sum) } else { None } }
    }
}

/// What stands behind the `+` of a sum.
pub(crate) fn addend(form: Form, text: &[u8]) -> Option<&[u8]>
    ensures { MatchOption result
        ((rest : List ℕ) → form ≡ Form.Short → text.now ≡ codes "+" ++ rest → ⊥)
        (λ rest. (form ≡ Form.Short) × (text.now ≡ codes "+" ++ rest.now)) }
{
    match form {
        Form::Plain => None,
        Form::Short => match text {
            [b'+', rest @ ..] => Some(rest),
            _ => None,
        },
    }
}

/// The instant that a time field stands for behind a row.
pub(crate) fn instant_of(form: Form, before: Option<Ratio>, text: &[u8]) -> Option<Ratio>
    requires { IfSome before IsTime }
    ensures { MatchOption result
        ((t : Ratio) → IsInstant form before text.now t → ⊥)
        (λ t. IsInstant form before text.now t × IsTime t) }
{
    match addend(form, text) {
        None => time_of(text),
        Some(more) => match time_of(more) {
            None => None,
            Some(more) => later_by(before, more),
        },
    }
}

/// The number that decimal digits write.
fn natural(digits: &[u8]) -> Option<u64>
    requires { length digits.now ≤ 18 }
    ensures { MatchOption result
        (0 < length digits.now → AllDigits 10 digits.now → ⊥)
        (λ n. (0 < length digits.now) × AllDigits 10 digits.now
        × (n ≡ digits_value 10 digits.now) × (n < 2 ^ 63)) }
{
    if digits.is_empty() {
        return None;
    }
    let mut value = 0;
    for digit in digits {
        if !digit.is_ascii_digit() {
            return None;
        }
        value = value * 10 + u64::from(digit - b'0');
    }
    Some(value)
}

/// A number with its sign.
pub(crate) fn signed(negative: bool, size: u64) -> i64
    requires { size < 2 ^ 63 }
    ensures { result ≡ (if negative then neg_ℤ (pos size) else pos size) }
{
    let size = size as i64;
    if negative { -size } else { size }
}

/// The Integer that a text writes.
fn integer_of(text: &[u8]) -> Option<Value>
    ensures { MatchOption result
        ((v : Value) → IsValue text.now NameKind.Integer v → ⊥)
        (IsValue text.now NameKind.Integer) }
{
    if text.len() > 18 {
        return long_integer_of(text);
    }
    let Some((first, digits)) = text.split_first() else {
        return None;
    };
    if *first == b'-' {
        let size = natural(digits)?;
        return Some(Value::Int(signed(true, size)));
    }
    if *first == b'+' {
        let size = natural(digits)?;
        return Some(Value::Int(signed(false, size)));
    }
    let size = natural(text)?;
    Some(Value::Int(signed(false, size)))
}

/// The same of a text that may have zeros in front, or be too large.
fn long_integer_of(text: &[u8]) -> Option<Value>
    ensures { MatchOption result
        ((v : Value) → IsValue text.now NameKind.Integer v → ⊥)
        (IsValue text.now NameKind.Integer) }
{
    match str::from_utf8(text) {
        Err(_) => None,
        Ok(text) => match text.parse::<i64>() {
            Err(_) => None,
            Ok(number) => Some(Value::Int(number)),
        },
    }
}

/// The Boolean that a text writes.
fn boolean_of(text: &[u8]) -> Option<Value>
    ensures { MatchOption result
        ((v : Value) → IsValue text.now NameKind.Boolean v → ⊥)
        (IsValue text.now NameKind.Boolean) }
{
    if text == b"true".as_slice() || text == b"1".as_slice() {
        Some(Value::Bool(true))
    } else if text == b"false".as_slice() || text == b"0".as_slice() {
        Some(Value::Bool(false))
    } else {
        None
    }
}

/// The value of a type that a text writes.
fn value_of(kind: NameKind, text: &[u8]) -> Option<Value>
    ensures { MatchOption result ((v : Value) → IsValue text.now kind v → ⊥) (IsValue text.now kind) }
{
    match kind {
        NameKind::Integer => integer_of(text),
        NameKind::Boolean => boolean_of(text),
        NameKind::Clock => None,
    }
}

/// The value that a field stands for below another.
pub(crate) fn cell_of(
    form: Form,
    before: Option<Value>,
    kind: NameKind,
    text: &[u8],
) -> Option<Value>
    ensures { MatchOption result
        ((v : Value) → IsCell form before kind text.now v → ⊥)
        (IsCell form before kind text.now) }
{
    match form {
        Form::Short if text.is_empty() => before,
        _ => value_of(kind, text),
    }
}
