//! Calls whose arguments are read and break no rule.
ghost use Rattle.std.specs.Prelude.{◌≡◌, IfOk, true};
ghost use Rattle.flat_types.specs.Outcomes as spec;
ghost use Rattle.flat_types.specs.Readings as node;
ghost use Rattle.flat_types.specs.private.Shapes as shapes;

use crate::callee::{Callee, Operator};
use crate::counters::counter;
use crate::ends::TypeCode;
use crate::named::{component, kind_of_name};
use crate::operators::{arithmetic, first_broken};
use crate::outcome::Outcome;
use flat_model::{ClockExpr, Conversion, Expr, FlatName, NameKind};
use sqlite_items::Boxed;
use std::alloc::{AllocError, Global};
use sync_values::List;

/// A variable as an argument, with its type.
fn variable(
    names: &[FlatName],
    refuses_input: bool,
    part: &Outcome,
) -> Result<(u32, NameKind), TypeCode>
    ensures { result ≡ node.variable names.now refuses_input part.now }
{
    let x = component(names, refuses_input, part)?;
    match kind_of_name(names, x) {
        Some(NameKind::Integer) => Ok((x, NameKind::Integer)),
        Some(NameKind::Boolean) => Ok((x, NameKind::Boolean)),
        _ => Err(TypeCode::Y1),
    }
}

/// The value of a variable at its tick before.
fn previous(names: &[FlatName], part: &Outcome) -> Outcome
    ensures { result ≡ node.previous_found names.now part.now }
{
    match variable(names, false, part) {
        Ok((x, kind)) => Outcome::Valued(Expr::Previous(x), kind),
        Err(code) => Outcome::Broken(code),
    }
}

/// The last value of a variable.
fn hold(names: &[FlatName], part: &Outcome) -> Outcome
    ensures { result ≡ node.hold_found names.now part.now }
{
    match variable(names, true, part) {
        Ok((x, kind)) => Outcome::Valued(Expr::Hold(x), kind),
        Err(code) => Outcome::Broken(code),
    }
}

/// The last value of a variable on a clock that nothing ties to its own.
fn no_clock(names: &[FlatName], part: &Outcome) -> Outcome
    ensures { result ≡ node.no_clock_found names.now part.now }
{
    match variable(names, true, part) {
        Ok((x, kind)) => Outcome::Valued(Expr::Convert(Conversion::NoClock, x), kind),
        Err(code) => Outcome::Broken(code),
    }
}

/// Whether the clock of a variable ticks for the first time.
fn first_tick(names: &[FlatName], part: &Outcome) -> Outcome
    ensures { result ≡ node.first_tick_found names.now part.now }
{
    match variable(names, false, part) {
        Ok((x, _)) => Outcome::Valued(Expr::FirstTick(Some(x)), NameKind::Boolean),
        Err(code) => Outcome::Broken(code),
    }
}

/// A conversion of a name of this kind.
fn converted_name(by: Conversion, x: u32, kind: Option<NameKind>) -> Outcome
    ensures { result ≡ spec.converted_kind by x kind }
{
    match kind {
        Some(NameKind::Clock) => Outcome::Clocked(ClockExpr::Convert(by, x)),
        Some(kind) => Outcome::Valued(Expr::Convert(by, x), kind),
        None => Outcome::Broken(TypeCode::Y1),
    }
}

/// A conversion of a variable or of a Clock name, where its factors are right.
fn converted(names: &[FlatName], part: &Outcome, by: Option<Conversion>) -> Outcome
    ensures { result ≡ spec.converted names.now (spec.component names.now true part.now) by }
{
    match (component(names, true, part), by) {
        (Err(code), _) => Outcome::Broken(code),
        (Ok(_), None) => Outcome::Broken(TypeCode::Y4),
        (Ok(x), Some(by)) => converted_name(by, x, kind_of_name(names, x)),
    }
}

/// A shift by a counter in a resolution, where both are right.
fn shifted(counter: Option<u32>, resolution: Option<u32>) -> Option<Conversion>
    ensures { result ≡ spec.both (λ m n. Conversion.Shift m n) counter resolution }
{
    Some(Conversion::Shift(counter?, resolution?))
}

/// A shift back, likewise.
fn shifted_back(counter: Option<u32>, resolution: Option<u32>) -> Option<Conversion>
    ensures { result ≡ spec.both (λ m n. Conversion.Back m n) counter resolution }
{
    Some(Conversion::Back(counter?, resolution?))
}

/// A slower clock, or a faster one, by a factor that is inferred where it is not given.
fn subsampled(names: &[FlatName], parts: &[Outcome]) -> Outcome
    ensures { result ≡ node.operator_found names.now Operator.SubSample parts.now }
{
    match parts {
        [part] => converted(names, part, Some(Conversion::Sub(0))),
        [part, factor] => converted(names, part, counter(0, factor).map(Conversion::Sub)),
        _ => Outcome::Broken(TypeCode::Y3),
    }
}

fn supersampled(names: &[FlatName], parts: &[Outcome]) -> Outcome
    ensures { result ≡ node.operator_found names.now Operator.SuperSample parts.now }
{
    match parts {
        [part] => converted(names, part, Some(Conversion::Super(0))),
        [part, factor] => converted(names, part, counter(0, factor).map(Conversion::Super)),
        _ => Outcome::Broken(TypeCode::Y3),
    }
}

/// A later clock, or an earlier one, by a counter in a resolution, which is 1 where it is not given.
fn shift_sampled(names: &[FlatName], parts: &[Outcome]) -> Outcome
    ensures { result ≡ node.operator_found names.now Operator.ShiftSample parts.now }
{
    match parts {
        [part, k] => converted(names, part, shifted(counter(0, k), Some(1))),
        [part, k, r] => converted(names, part, shifted(counter(0, k), counter(1, r))),
        _ => Outcome::Broken(TypeCode::Y3),
    }
}

fn back_sampled(names: &[FlatName], parts: &[Outcome]) -> Outcome
    ensures { result ≡ node.operator_found names.now Operator.BackSample parts.now }
{
    match parts {
        [part, k] => converted(names, part, shifted_back(counter(0, k), Some(1))),
        [part, k, r] => converted(names, part, shifted_back(counter(0, k), counter(1, r))),
        _ => Outcome::Broken(TypeCode::Y3),
    }
}

/// An operator of clocked variables.
fn operator(names: &[FlatName], operator: Operator, parts: &[Outcome]) -> Outcome
    ensures { result ≡ node.operator_found names.now operator parts.now }
{
    match (operator, parts) {
        (Operator::Previous, [part]) => previous(names, part),
        (Operator::Hold, [part]) => hold(names, part),
        (Operator::NoClock, [part]) => no_clock(names, part),
        (Operator::FirstTick, []) => Outcome::Valued(Expr::FirstTick(None), NameKind::Boolean),
        (Operator::FirstTick, [part]) => first_tick(names, part),
        (Operator::SubSample, _) => subsampled(names, parts),
        (Operator::SuperSample, _) => supersampled(names, parts),
        (Operator::ShiftSample, _) => shift_sampled(names, parts),
        (Operator::BackSample, _) => back_sampled(names, parts),
        _ => Outcome::Broken(TypeCode::Y3),
    }
}

/// An interval outside of its form.
fn interval(parts: &[Outcome]) -> Outcome
    ensures { result ≡ node.interval_alone parts.now }
{
    match parts {
        [] | [_] => Outcome::Broken(TypeCode::Y5),
        _ => Outcome::Broken(TypeCode::Y3),
    }
}

/// None, one or two arguments by themselves.
#[derive(Drop)]
pub enum Few {
    None,
    One(Outcome),
    Two(Outcome, Outcome),
    More,
}

/// The arguments of a list, where they are two at most.
fn apart(parts: List<Outcome>) -> Few
    ensures { result ≡ shapes.few_of parts }
{
    let mut parts = parts;
    let Some(last) = parts.pop() else {
        return Few::None;
    };
    let Some(first) = parts.pop() else {
        return Few::One(last);
    };
    if parts.is_empty() {
        Few::Two(first, last)
    } else {
        Few::More
    }
}

/// An expression on a clock, where both are right.
fn sampled(
    alloc: Global,
    part: Option<(Expr, NameKind)>,
    clock: Option<Option<ClockExpr>>,
) -> Result<Outcome, AllocError>
    ensures { IfOk result (λ found. found ≡ spec.sampled part clock) }
{
    let Some(((part, kind), clock)) = part.zip(clock) else {
        return Ok(Outcome::Broken(TypeCode::Y1));
    };
    Boxed::new(alloc, part).map(|part| Outcome::Valued(Expr::Sample(part, clock), kind))
}

/// The left limit of an expression.
fn sample(alloc: Global, names: &[FlatName], parts: List<Outcome>) -> Result<Outcome, AllocError>
    ensures { IfOk result (λ found. found ≡ node.sample_found names.now parts) }
{
    match apart(parts) {
        Few::One(part) => sampled(alloc, part.into_value(names), Some(None)),
        Few::Two(part, clock) => {
            let clock = clock.into_clock(names).map(Some);
            sampled(alloc, part.into_value(names), clock)
        }
        _ => Ok(Outcome::Broken(TypeCode::Y3)),
    }
}

/// A clock by a counter in a resolution, where both are right; by a counter of 0 it is inferred.
fn rational(counter: Option<u32>, resolution: Option<u32>) -> Outcome
    ensures { result ≡ spec.clocked (spec.both spec.clock_of counter resolution) TypeCode.Y4 }
{
    match (counter, resolution) {
        (Some(0), Some(_)) => Outcome::Clocked(ClockExpr::Inferred),
        (Some(counter), Some(resolution)) => {
            Outcome::Clocked(ClockExpr::Rational(counter, resolution))
        }
        _ => Outcome::Broken(TypeCode::Y4),
    }
}

/// A clock by one argument: of an event where that is a Boolean, else by a counter.
fn clock_by(alloc: Global, names: &[FlatName], part: Outcome) -> Result<Outcome, AllocError>
    ensures { IfOk result (λ found. found ≡ spec.clock_by part (spec.as_value names.now part)) }
{
    let count = counter(0, &part);
    match part.into_value(names) {
        Some((condition, NameKind::Boolean)) => {
            let condition = Boxed::new(alloc, condition)?;
            Ok(Outcome::Clocked(ClockExpr::Event(condition)))
        }
        other => {
            drop(other);
            Ok(rational(count, Some(1)))
        }
    }
}

/// A clock.
fn clock(alloc: Global, names: &[FlatName], parts: List<Outcome>) -> Result<Outcome, AllocError>
    ensures { IfOk result (λ found. found ≡ node.clock_found names.now parts) }
{
    match apart(parts) {
        Few::None => Ok(Outcome::Clocked(ClockExpr::Inferred)),
        Few::One(part) => clock_by(alloc, names, part),
        Few::Two(n, r) => Ok(rational(counter(0, &n), counter(1, &r))),
        Few::More => Ok(Outcome::Broken(TypeCode::Y3)),
    }
}

/// A call of anything but `integer`.
pub fn call(
    alloc: Global,
    names: &[FlatName],
    callee: Callee,
    parts: List<Outcome>,
) -> Result<Outcome, AllocError>
    ensures { IfOk result (λ found. found ≡ node.after parts (node.call_found names.now callee parts)) }
{
    if let Some(code) = first_broken(parts.as_slice()) {
        return Ok(Outcome::Broken(code));
    }
    match callee {
        Callee::Arithmetic(function) => arithmetic(alloc, names, function, parts),
        Callee::Operator(called) => Ok(operator(names, called, parts.as_slice())),
        Callee::Sample => sample(alloc, names, parts),
        Callee::Clock => clock(alloc, names, parts),
        Callee::Interval => Ok(interval(parts.as_slice())),
        Callee::LeftOut => Ok(Outcome::Broken(TypeCode::Y5)),
        Callee::Integer | Callee::Unknown => Ok(Outcome::Broken(TypeCode::Y3)),
    }
}
