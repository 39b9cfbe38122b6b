//! The reading of expressions whose types are not known yet.
ghost use Rattle.std.specs.Prelude.{◌≡◌, ◌≢◌, ◌≤◌, [], ◌∷◌, IfOk, MatchOption, map, length, Some};
ghost use Rattle.std.specs.Option.{option_copied};
ghost use Rattle.flat_types.specs.Readings as node;
ghost use Rattle.flat_types.specs.private.Shapes as shapes;
ghost use Rattle.flat_types.specs.declared.callee.Callee.TheVariants as callees;

use crate::callee::{Callee, called};
use crate::calls::call;
use crate::counters::counter;
use crate::ends::TypeCode;
use crate::named::{component, kind_of_name};
use crate::operators::{
    broken, chain, choice, either_broken, first_broken, inverted, negated, relation, type_of_value,
};
use crate::outcome::Outcome;
use flat_model::{Expr, FlatName, NameKind, RawExpr};
use std::alloc::{AllocError, Global};
use sync_values::{ChainOp, List};

/// What is refused where no part breaks a rule before.
fn refused(parts: &[Outcome], code: TypeCode) -> Outcome
    ensures { result ≡ node.after parts.now (Outcome.Broken code) }
{
    Outcome::Broken(first_broken(parts).unwrap_or(code))
}

/// A power, which the profile leaves out.
fn power(left: &Outcome, right: &Outcome) -> Outcome
    ensures { result ≡ node.after_both left.now right.now (Outcome.Broken TypeCode.Y5) }
{
    Outcome::Broken(either_broken(left, right).unwrap_or(TypeCode::Y5))
}

/// The interval form of a name and a factor.
fn interval_times(u: Option<u32>, k: &Outcome) -> Outcome
    ensures { result ≡ node.with_counter u k.now }
{
    match counter(1, k) {
        Some(k) => Outcome::Valued(Expr::IntervalTimes(u, k), NameKind::Integer),
        None => Outcome::Broken(TypeCode::Y4),
    }
}

/// `interval(u) * k`.
fn interval_first(interval: Result<Option<u32>, TypeCode>, k: Outcome) -> Outcome
    ensures { result ≡ node.of_product (node.first_interval interval k) }
{
    match interval {
        Err(code) => Outcome::Broken(code),
        Ok(u) => match broken(&k) {
            Some(code) => Outcome::Broken(code),
            None => interval_times(u, &k),
        },
    }
}

/// `k * interval(u)`.
fn interval_second(k: Outcome, interval: Result<Option<u32>, TypeCode>) -> Outcome
    ensures { result ≡ node.of_product (node.second_interval k interval) }
{
    match broken(&k) {
        Some(code) => Outcome::Broken(code),
        None => match interval {
            Err(code) => Outcome::Broken(code),
            Ok(u) => interval_times(u, &k),
        },
    }
}

/// An argument of `integer` that has not the form.
fn no_product(part: Outcome) -> Outcome
    ensures { result ≡ node.after_one part (Outcome.Broken TypeCode.Y1) }
{
    Outcome::Broken(broken(&part).unwrap_or(TypeCode::Y1))
}

/// One part by itself.
fn one(parts: &[RawExpr]) -> Option<&RawExpr>
    ensures { MatchOption result (length parts.now ≢ 1) (λ part. parts.now ≡ part.now ∷ []) }
{
    match parts {
        [part] => Some(part),
        _ => None,
    }
}

/// The name whose interval is asked for.
fn interval_of(names: &[FlatName], part: &Outcome) -> Result<u32, TypeCode>
    ensures { result ≡ node.interval_name names.now part.now }
{
    if let Outcome::Broken(code) = part {
        return Err(*code);
    }
    let x = component(names, false, part)?;
    match kind_of_name(names, x) {
        Some(NameKind::Integer) | Some(NameKind::Boolean) => Ok(x),
        _ => Err(TypeCode::Y1),
    }
}

/// The arguments of a call of `interval`, where there is one at most.
fn interval_call(callee: Callee, parts: &[RawExpr]) -> Option<&[RawExpr]>
    ensures { shapes.IsIntervalCall callee parts.now (option_copied result) }
{
    match callee {
        Callee::Interval if parts.len() <= 1 => Some(parts),
        _ => None,
    }
}

/// The arguments of a node that is such a call.
#[tactic(auto, using(crate::proofs::Nodes::readings))]
fn interval_arguments(raw: &RawExpr) -> Option<&[RawExpr]>
    ensures { shapes.IsInterval raw.now (option_copied result) }
{
    match raw {
        RawExpr::Call(name, parts) => interval_call(called(name.as_bytes()), parts.as_slice()),
        RawExpr::Const(_) => None,
        RawExpr::Name(_) => None,
        RawExpr::Chain(_, _) => None,
        RawExpr::Relation(_, _, _) => None,
        RawExpr::Neg(_) => None,
        RawExpr::Not(_) => None,
        RawExpr::Power(_, _) => None,
        RawExpr::If(_, _, _) => None,
        RawExpr::Time => None,
    }
}

/// Whether a chain is one product.
fn is_times(ops: &[ChainOp]) -> bool
    ensures { result ≡ node.is_times ops.now }
{
    match ops {
        [ChainOp::Times] => true,
        _ => false,
    }
}

/// Two parts by themselves.
fn pair(parts: &[RawExpr]) -> Option<(&RawExpr, &RawExpr)>
    ensures { MatchOption result (shapes.AreNoFactors parts.now) (λ found. parts.now ≡ found.0.now ∷ (found.1.now ∷ [])) }
{
    match parts {
        [a, b] => Some((a, b)),
        _ => None,
    }
}

/// The two factors of a product.
#[tactic(auto, using(crate::proofs::Nodes::readings))]
fn factors(raw: &RawExpr) -> Option<(&RawExpr, &RawExpr)>
    ensures { MatchOption result (shapes.HasNoFactors raw.now) (λ found. shapes.HasFactors raw.now found.0.now found.1.now) }
{
    match raw {
        RawExpr::Chain(parts, ops) => {
            if is_times(ops.as_slice()) {
                pair(parts.as_slice())
            } else {
                None
            }
        }
        RawExpr::Const(_) => None,
        RawExpr::Name(_) => None,
        RawExpr::Call(_, _) => None,
        RawExpr::Relation(_, _, _) => None,
        RawExpr::Neg(_) => None,
        RawExpr::Not(_) => None,
        RawExpr::Power(_, _) => None,
        RawExpr::If(_, _, _) => None,
        RawExpr::Time => None,
    }
}

/// Reads expressions over these names.
#[derive(Drop)]
pub struct Reader<'a> {
    pub alloc: Global,
    pub names: &'a [FlatName],
}

impl<'a> Reader<'a> {
    /// What several nodes are.
    #[cycle(reading)]
    pub fn all(&self, parts: &[RawExpr]) -> Result<List<Outcome>, AllocError>
        ensures { IfOk result (λ found. found ≡ map (node.node_of self.now.names.now) parts.now) }
    {
        let mut found = List::new(self.alloc);
        for part in parts {
            found.push(self.read(part)?)?;
        }
        Ok(found)
    }

    /// The interval of a name that is given, or else of the clock of the equation.
    #[cycle(reading)]
    fn interval(&self, parts: &[RawExpr]) -> Result<Result<Option<u32>, TypeCode>, AllocError>
        requires { length parts.now ≤ 1 }
        ensures { IfOk result (λ found. node.interval_of self.now.names.now callees.Interval (map (node.node_of self.now.names.now) parts.now) ≡ Some found) }
    {
        match parts {
            [part] => {
                let part = self.read(part)?;
                Ok(interval_of(self.names, &part).map(Some))
            }
            _ => Ok(Ok(None)),
        }
    }

    /// The argument of `integer`: a product with an interval, or what it is by itself.
    #[cycle(reading)]
    fn whole(&self, part: &RawExpr) -> Result<Outcome, AllocError>
        ensures { IfOk result (λ found. found ≡ (node.integer_read self.now.names.now (node.reading self.now.names.now part.now)).found) }
    {
        let Some((a, b)) = factors(part) else {
            return Ok(no_product(self.read(part)?));
        };
        if let Some(parts) = interval_arguments(a) {
            let interval = self.interval(parts)?;
            return Ok(interval_first(interval, self.read(b)?));
        }
        if let Some(parts) = interval_arguments(b) {
            let interval = self.interval(parts)?;
            return Ok(interval_second(self.read(a)?, interval));
        }
        Ok(no_product(self.read(part)?))
    }

    /// `integer` of these arguments.
    #[cycle(reading)]
    fn integer(&self, parts: &[RawExpr]) -> Result<Outcome, AllocError>
        ensures { IfOk result (λ found. found ≡ (node.call_read self.now.names.now callees.Integer (map (node.reading self.now.names.now) parts.now)).found) }
    {
        let Some(part) = one(parts) else {
            let parts = self.all(parts)?;
            return Ok(refused(parts.as_slice(), TypeCode::Y3));
        };
        self.whole(part)
    }

    /// A call.
    #[cycle(reading)]
    fn call(&self, callee: Callee, parts: &[RawExpr]) -> Result<Outcome, AllocError>
        ensures { IfOk result (λ found. found ≡ (node.call_read self.now.names.now callee (map (node.reading self.now.names.now) parts.now)).found) }
    {
        match callee {
            Callee::Integer => self.integer(parts),
            _ => call(self.alloc, self.names, callee, self.all(parts)?),
        }
    }

    /// What a node is.
    #[cycle(reading)]
    pub fn read(&self, raw: &RawExpr) -> Result<Outcome, AllocError>
        ensures { IfOk result (λ found. found ≡ node.node_of self.now.names.now raw.now) }
    {
        match raw {
            RawExpr::Const(value) => {
                Ok(Outcome::Valued(Expr::Const(*value), type_of_value(*value)))
            }
            RawExpr::Name(x) => Ok(Outcome::Name(*x)),
            RawExpr::Call(name, parts) => self.call(called(name.as_bytes()), parts.as_slice()),
            RawExpr::Chain(parts, ops) => {
                chain(
                    self.alloc,
                    self.names,
                    self.all(parts.as_slice())?,
                    ops.as_slice(),
                )
            }
            RawExpr::Relation(rel, left, right) => {
                let left = self.read(left.get())?;
                let right = self.read(right.get())?;
                relation(self.alloc, self.names, *rel, left, right)
            }
            RawExpr::Neg(part) => negated(self.alloc, self.names, self.read(part.get())?),
            RawExpr::Not(part) => inverted(self.alloc, self.names, self.read(part.get())?),
            RawExpr::Power(left, right) => {
                let left = self.read(left.get())?;
                let right = self.read(right.get())?;
                Ok(power(&left, &right))
            }
            RawExpr::If(conditions, branches, other) => {
                let conditions = self.all(conditions.as_slice())?;
                let branches = self.all(branches.as_slice())?;
                let other = self.read(other.get())?;
                choice(self.alloc, self.names, conditions, branches, other)
            }
            RawExpr::Time => Ok(Outcome::Broken(TypeCode::Y5)),
        }
    }
}
