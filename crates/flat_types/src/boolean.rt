//! Whether the root of an expression gives a Boolean by its form, whatever its own types are.
ghost use Rattle.std.specs.Prelude.{◌≡◌, [], ◌∷◌, IfOk, map, Some};
ghost use Rattle.std.specs.List.{list_all};
ghost use Rattle.flat_model.specs.Typing as typing;
ghost use Rattle.flat_types.specs.Readings as node;

use crate::callee::{Callee, Operator, called};
use crate::named::kind_of_name;
use crate::operators::{
    broken, either_broken, first_broken, first_broken_in_turn, is_type, type_of_value,
};
use crate::outcome::Outcome;
use crate::reader::Reader;
use flat_model::{FlatName, NameKind, RawExpr};
use std::alloc::AllocError;
use sync_values::ChainOp;

/// Whether the operators of a chain are of Booleans.
fn is_logical(ops: &[ChainOp]) -> bool
    ensures { result ≡ typing.is_type NameKind.Boolean (node.chain_gives ops.now) }
{
    match ops {
        [ChainOp::And, ..] | [ChainOp::Or, ..] => true,
        _ => false,
    }
}

/// Whether a part is a Boolean, by itself.
fn is_boolean(names: &[FlatName], part: &Outcome) -> bool
    ensures { result ≡ typing.is_type NameKind.Boolean (node.gives_of names.now part.now) }
{
    match part {
        Outcome::Name(x) => is_type(NameKind::Boolean, kind_of_name(names, *x)),
        Outcome::Valued(_, kind) => is_type(NameKind::Boolean, Some(*kind)),
        _ => false,
    }
}

/// Whether all branches are Booleans.
fn are_boolean(names: &[FlatName], branches: &[Outcome]) -> bool
    ensures { result ≡ list_all (node.gives_boolean names.now) branches.now }
{
    branches.iter().all(|branch| is_boolean(names, branch))
}

/// Whether a part is the name of a Boolean.
fn names_boolean(names: &[FlatName], part: &Outcome) -> bool
    ensures { result ≡ typing.is_type NameKind.Boolean (node.name_gives names.now part.now) }
{
    match part {
        Outcome::Name(x) => is_type(NameKind::Boolean, kind_of_name(names, *x)),
        _ => false,
    }
}

/// Whether an operator gives a Boolean, where it takes so many arguments.
fn operator_gives_boolean(names: &[FlatName], operator: Operator, parts: &[Outcome]) -> bool
    ensures { result ≡ typing.is_type NameKind.Boolean (node.operator_gives names.now operator parts.now) }
{
    match (operator, parts) {
        (Operator::FirstTick, []) => true,
        (Operator::FirstTick, [_]) => true,
        (Operator::Previous, [u]) => names_boolean(names, u),
        (Operator::Hold, [u]) => names_boolean(names, u),
        (Operator::NoClock, [u]) => names_boolean(names, u),
        (Operator::SubSample, [u]) => names_boolean(names, u),
        (Operator::SubSample, [u, _]) => names_boolean(names, u),
        (Operator::SuperSample, [u]) => names_boolean(names, u),
        (Operator::SuperSample, [u, _]) => names_boolean(names, u),
        (Operator::ShiftSample, [u, _]) => names_boolean(names, u),
        (Operator::ShiftSample, [u, _, _]) => names_boolean(names, u),
        (Operator::BackSample, [u, _]) => names_boolean(names, u),
        (Operator::BackSample, [u, _, _]) => names_boolean(names, u),
        _ => false,
    }
}

/// Whether a call gives a Boolean.
fn call_gives_boolean(names: &[FlatName], callee: Callee, parts: &[Outcome]) -> bool
    ensures { result ≡ typing.is_type NameKind.Boolean (node.call_gives names.now callee parts.now) }
{
    match (callee, parts) {
        (Callee::Operator(operator), _) => operator_gives_boolean(names, operator, parts),
        (Callee::Sample, [part]) => is_boolean(names, part),
        (Callee::Sample, [part, _]) => is_boolean(names, part),
        _ => false,
    }
}

/// Whether a call that is none of `integer` gives a Boolean.
fn call_is_boolean(names: &[FlatName], callee: Callee, parts: &[Outcome]) -> bool
    ensures { result ≡ typing.is_type NameKind.Boolean (node.given parts.now (node.call_gives names.now callee parts.now)) }
{
    first_broken(parts).is_none() && call_gives_boolean(names, callee, parts)
}

/// Whether a chain gives a Boolean.
fn chain_is_boolean(parts: &[Outcome], ops: &[ChainOp]) -> bool
    ensures { result ≡ typing.is_type NameKind.Boolean (node.given parts.now (node.chain_gives ops.now)) }
{
    first_broken(parts).is_none() && is_logical(ops)
}

/// Whether a relation gives a Boolean, which it does where its sides break no rule.
fn relation_is_boolean(left: &Outcome, right: &Outcome) -> bool
    ensures { result ≡ typing.is_type NameKind.Boolean (node.given (left.now ∷ (right.now ∷ [])) (Some NameKind.Boolean)) }
{
    either_broken(left, right).is_none()
}

/// The same of `not`.
fn inverse_is_boolean(part: &Outcome) -> bool
    ensures { result ≡ typing.is_type NameKind.Boolean (node.given (part.now ∷ []) (Some NameKind.Boolean)) }
{
    broken(part).is_none()
}

/// Whether a choice gives a Boolean.
fn choice_is_boolean(
    names: &[FlatName],
    conditions: &[Outcome],
    branches: &[Outcome],
    other: &Outcome,
) -> bool
    ensures { result ≡ typing.is_type NameKind.Boolean (node.choice_gives names.now conditions.now branches.now other.now) }
{
    first_broken_in_turn(conditions, branches, other).is_none()
        && is_boolean(names, other)
        && are_boolean(names, branches)
}

impl<'a> Reader<'a> {
    /// Whether a call gives a Boolean.
    fn call_gives_boolean(&self, callee: Callee, parts: &[RawExpr]) -> Result<bool, AllocError>
        ensures { IfOk result (λ taken. taken ≡ typing.is_type NameKind.Boolean (node.call_read self.now.names.now callee (map (node.reading self.now.names.now) parts.now)).gives) }
    {
        match callee {
            Callee::Integer => Ok(false),
            _ => {
                let parts = self.all(parts)?;
                Ok(call_is_boolean(self.names, callee, parts.as_slice()))
            }
        }
    }

    /// Whether a chain gives a Boolean.
    fn chain_gives_boolean(&self, parts: &[RawExpr], ops: &[ChainOp]) -> Result<bool, AllocError>
        ensures { IfOk result (λ taken. taken ≡ typing.is_type NameKind.Boolean (node.given (map (node.node_of self.now.names.now) parts.now) (node.chain_gives ops.now))) }
    {
        let parts = self.all(parts)?;
        Ok(chain_is_boolean(parts.as_slice(), ops))
    }

    /// Whether a relation gives a Boolean.
    fn relation_gives_boolean(&self, left: &RawExpr, right: &RawExpr) -> Result<bool, AllocError>
        ensures { IfOk result (λ taken. taken ≡ typing.is_type NameKind.Boolean (node.given (node.node_of self.now.names.now left.now ∷ (node.node_of self.now.names.now right.now ∷ [])) (Some NameKind.Boolean))) }
    {
        let left = self.read(left)?;
        let right = self.read(right)?;
        Ok(relation_is_boolean(&left, &right))
    }

    /// Whether `not` gives a Boolean.
    fn inverse_gives_boolean(&self, part: &RawExpr) -> Result<bool, AllocError>
        ensures { IfOk result (λ taken. taken ≡ typing.is_type NameKind.Boolean (node.given (node.node_of self.now.names.now part.now ∷ []) (Some NameKind.Boolean))) }
    {
        let part = self.read(part)?;
        Ok(inverse_is_boolean(&part))
    }

    /// Whether a choice gives a Boolean.
    fn choice_gives_boolean(
        &self,
        conditions: &[RawExpr],
        branches: &[RawExpr],
        other: &RawExpr,
    ) -> Result<bool, AllocError>
        ensures { IfOk result (λ taken. taken ≡ typing.is_type NameKind.Boolean (node.choice_gives self.now.names.now (map (node.node_of self.now.names.now) conditions.now) (map (node.node_of self.now.names.now) branches.now) (node.node_of self.now.names.now other.now))) }
    {
        let conditions = self.all(conditions)?;
        let branches = self.all(branches)?;
        let other = self.read(other)?;
        Ok(choice_is_boolean(
            self.names,
            conditions.as_slice(),
            branches.as_slice(),
            &other,
        ))
    }

    /// Whether the root of an expression gives a Boolean.
    pub fn gives_boolean(&self, raw: &RawExpr) -> Result<bool, AllocError>
        ensures { IfOk result (λ taken. taken ≡ typing.is_type NameKind.Boolean (node.reading self.now.names.now raw.now).gives) }
    {
        match raw {
            RawExpr::Const(value) => { Ok(is_type(NameKind::Boolean, Some(type_of_value(*value)))) }
            RawExpr::Name(x) => Ok(is_type(NameKind::Boolean, kind_of_name(self.names, *x))),
            RawExpr::Call(name, parts) => {
                self.call_gives_boolean(called(name.as_bytes()), parts.as_slice())
            }
            RawExpr::Chain(parts, ops) => {
                self.chain_gives_boolean(parts.as_slice(), ops.as_slice())
            }
            RawExpr::Relation(_, left, right) => {
                self.relation_gives_boolean(left.get(), right.get())
            }
            RawExpr::Not(part) => self.inverse_gives_boolean(part.get()),
            RawExpr::If(conditions, branches, other) => {
                self.choice_gives_boolean(conditions.as_slice(), branches.as_slice(), other.get())
            }
            RawExpr::Neg(_) => Ok(false),
            RawExpr::Power(_, _) => Ok(false),
            RawExpr::Time => Ok(false),
        }
    }
}
