ghost use Rattle.std.specs.Prelude.{◌≡◌, ◌++◌, ◌∷◌, ◌+◌, ◌*◌, ◌<◌, ◌≤◌, ◌^◌, ◌⊎◌, ℕ, List, length, Some, IfSome};
ghost use Rattle.std.specs.Str.Parse.{digits_value};
ghost use Rattle.rational_time.specs.Fraction.{IsFraction};
ghost use Rattle.rational_time.specs.TimeText.{IsNumeral};
ghost use Rattle.flat_model.specs.Tables.{IsTime};
ghost use Rattle.input_table.specs.private.Front.{NumberFront, WrittenFront, IsSmall, InstantFront, ValueFront};

use crate::fields::{addend, signed};
use crate::header::Form;
use flat_model::NameKind;
use rational_time::{Ratio, make};
use sync_values::Value;

/// No instant of a table reaches so many seconds.
const TIME_LIMIT: u64 = 1_048_576;

/// What follows a mark in front of a text.
#[inline(always)]
pub(crate) fn behind(mark: u8, text: &[u8]) -> Option<&[u8]>
    ensures { IfSome result (λ rest. text.now ≡ mark ∷ rest.now) }
{
    let Some((first, rest)) = text.split_first() else {
        return None;
    };
    if *first == mark { Some(rest) } else { None }
}

/// The number that the 1 to 18 digits in front of a text write, and what follows them, if more follows.
#[inline(always)]
fn number_front(text: &[u8]) -> Option<(u64, &[u8])>
    ensures { IfSome result (λ r. NumberFront text.now r.0 r.1.now) }
{
    let mut value = 0;
    for (at, byte) in text.iter().enumerate() {
        if !byte.is_ascii_digit() {
            if at == 0 {
                return None;
            }
            let (_, rest) = text.split_at(at);
            return Some((value, rest));
        }
        if at == 18 {
            return None;
        }
        value = value * 10 + u64::from(byte - b'0');
    }
    None
}

/// The power of ten, which stands in a table up to 10^9.
fn power_of_ten(exponent: usize) -> u64
    requires { exponent ≤ 9 }
    ensures { result ≡ 10 ^ exponent }
{
    match exponent {
        0 => 1,
        1 => 10,
        2 => 100,
        3 => 1_000,
        4 => 10_000,
        5 => 100_000,
        6 => 1_000_000,
        7 => 10_000_000,
        8 => 100_000_000,
        _ => 1_000_000_000,
    }
}

/// The fraction of a whole number and the decimals in front of a text, and what follows them.
#[inline(always)]
fn decimal_front(whole: u64, part: &[u8]) -> Option<(u64, u64, &[u8])>
    ensures { IfSome result (λ r. (digits : List ℕ) × (part.now ≡ digits ++ r.2.now) × IsNumeral 9 digits
        × (r.0 ≡ whole * 10 ^ length digits + digits_value 10 digits) × (r.1 ≡ 10 ^ length digits)) }
{
    if whole >= TIME_LIMIT {
        return None;
    }
    let (digits, rest) = number_front(part)?;
    let places = part.len() - rest.len();
    if places > 9 {
        return None;
    }
    let scale = power_of_ten(places);
    Some((whole * scale + digits, scale, rest))
}

/// The fraction that the time text in front of a text writes, not reduced, and what follows it.
#[inline(always)]
fn written_front(text: &[u8]) -> Option<(u64, u64, &[u8])>
    ensures { IfSome result (λ r. (0 < r.1) × WrittenFront text.now r.0 r.1 r.2.now) }
{
    let (whole, rest) = number_front(text)?;
    if let Some(part) = behind(b'.', rest) {
        return decimal_front(whole, part);
    }
    if let Some(below) = behind(b'/', rest) {
        let (under, others) = number_front(below)?;
        if under == 0 {
            return None;
        }
        return Some((whole, under, others));
    }
    Some((whole, 1, rest))
}

/// The same, if it is that of an instant that a table may have.
#[inline(always)]
fn time_front(text: &[u8]) -> Option<(u64, u64, &[u8])>
    ensures { IfSome result (λ r. IsSmall r.0 r.1 × WrittenFront text.now r.0 r.1 r.2.now) }
{
    let (num, den, rest) = written_front(text)?;
    if den < 1 << 32 && num < den << 20 {
        Some((num, den, rest))
    } else {
        None
    }
}

/// The sum of an instant and a fraction, if all of it fits 64 bits and a table may have the sum.
#[inline(always)]
fn short_sum(before: Ratio, num: u64, den: u64) -> Option<Ratio>
    requires before { IsTime before }
    requires small { IsSmall num den }
    ensures { IfSome result (λ t. IsFraction t (before.num * den + num * before.den) (before.den * den) × IsTime t) }
{
    let unit = before.den() * den;
    if unit >= 1 << 43 {
        return None;
    }
    let sum = before.num() * den + num * before.den();
    if sum >= unit * 1_048_576 {
        return None;
    }
    let time = make(sum, unit);
    if time.den() < 1 << 32 {
        Some(time)
    } else {
        None
    }
}

/// The instant that the field in front of a text stands for behind another one, and what follows it.
#[inline(always)]
pub(crate) fn instant_front(form: Form, before: Ratio, text: &[u8]) -> Option<(Ratio, &[u8])>
    requires { IsTime before }
    ensures { IfSome result (λ r. InstantFront form before text.now r.0 r.1.now) }
{
    match addend(form, text) {
        None => {
            let (num, den, rest) = time_front(text)?;
            Some((make(num, den), rest))
        }
        Some(more) => {
            let (num, den, rest) = time_front(more)?;
            let sum = short_sum(before, num, den)?;
            Some((sum, rest))
        }
    }
}

/// The Integer in front of a text, and what follows it.
#[inline(always)]
fn integer_front(text: &[u8]) -> Option<(Value, &[u8])>
    ensures { IfSome result (λ r. ValueFront text.now NameKind.Integer r.0 r.1.now) }
{
    if let Some(digits) = behind(b'-', text) {
        let (size, rest) = number_front(digits)?;
        return Some((Value::Int(signed(true, size)), rest));
    }
    if let Some(others) = behind(b'+', text) {
        let (number, back) = number_front(others)?;
        return Some((Value::Int(signed(false, number)), back));
    }
    let (value, end) = number_front(text)?;
    Some((Value::Int(signed(false, value)), end))
}

/// The digit of a Boolean in front of a text, and what follows it.
fn boolean_front(text: &[u8]) -> Option<(Value, &[u8])>
    ensures { IfSome result (λ r. ValueFront text.now NameKind.Boolean r.0 r.1.now) }
{
    if let Some(rest) = behind(b'0', text) {
        return Some((Value::Bool(false), rest));
    }
    if let Some(others) = behind(b'1', text) {
        return Some((Value::Bool(true), others));
    }
    None
}

/// The value of a type in front of a text, and what follows it.
#[inline(always)]
pub(crate) fn value_front(kind: NameKind, text: &[u8]) -> Option<(Value, &[u8])>
    ensures { IfSome result (λ r. ValueFront text.now kind r.0 r.1.now) }
{
    match kind {
        NameKind::Integer => integer_front(text),
        NameKind::Boolean => boolean_front(text),
        NameKind::Clock => None,
    }
}
