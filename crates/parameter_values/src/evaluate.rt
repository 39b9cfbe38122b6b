//! Values of expressions from values of names.
ghost use Rattle.std.specs.Prelude.{◌≡◌, ℕ, IfOk, [], ◌∷◌, ◌++◌, map, Some, None, Option};
ghost use Rattle.flat_model.specs.Operators.{Is, applied, negated, inverted, relation, settled};
ghost use Rattle.flat_model.specs.Functions.{called};
ghost use Rattle.class_scopes.specs.Spelled as spellings;
ghost use Rattle.parameter_values.specs.Values as values;
ghost use Rattle.parameter_values.specs.Outcomes as outcomes;
ghost use Rattle.parameter_values.specs.Givens as givens;

use class_scopes::{Table, is_time};
use flat_model::{Fun, NameKind};
use mo_order::{Given, Giver, values_of};
use mo_parser::{Path, TreeExpr, TreeNode, spelled};
use std::alloc::{AllocError, Global};
use sync_values::{
    ChainOp, Fail, Rel, Text, Value, abs, add, div, greatest, least, modulo, mul, neg, relate, rem,
    sub,
};

/// What evaluating an expression gives. Source: MLS 3.6, chapter 3, "Operators and Expressions", in this project's profile.
#[derive(Clone, Copy)]
pub enum Outcome {
    Known(Value),
    Failing(Fail),
    /// Nothing, as long as the number has no value; or nothing whatever has values.
    Missing(Option<usize>),
}

fn whole(number: Result<i64, Fail>) -> Outcome
    ensures { result ≡ outcomes.outcome_of (settled number) }
{
    match number {
        Ok(number) => Outcome::Known(Value::Int(number)),
        Err(kind) => Outcome::Failing(kind),
    }
}

fn negated(part: Value) -> Outcome
    ensures { result ≡ outcomes.outcome_of (negated (Is part)) }
{
    match part {
        Value::Int(number) => whole(neg(number)),
        Value::Bool(_) => Outcome::Missing(None),
    }
}

fn inverted(part: Value) -> Outcome
    ensures { result ≡ outcomes.outcome_of (inverted (Is part)) }
{
    match part {
        Value::Bool(truth) => Outcome::Known(Value::Bool(!truth)),
        Value::Int(_) => Outcome::Missing(None),
    }
}

fn applied(op: ChainOp, left: Value, right: Value) -> Outcome
    ensures { result ≡ outcomes.outcome_of (applied op left right) }
{
    match (op, left, right) {
        (ChainOp::Plus, Value::Int(a), Value::Int(b)) => whole(add(a, b)),
        (ChainOp::Minus, Value::Int(a), Value::Int(b)) => whole(sub(a, b)),
        (ChainOp::Times, Value::Int(a), Value::Int(b)) => whole(mul(a, b)),
        (ChainOp::And, Value::Bool(_), Value::Bool(_)) => Outcome::Known(right),
        (ChainOp::Or, Value::Bool(_), Value::Bool(_)) => Outcome::Known(right),
        _ => Outcome::Missing(None),
    }
}

fn related(rel: Rel, left: Value, right: Value) -> Outcome
    ensures { result ≡ outcomes.outcome_of (relation rel (Is left) (Is right)) }
{
    match (left, right) {
        (Value::Int(_), Value::Int(_)) | (Value::Bool(_), Value::Bool(_)) => {
            Outcome::Known(Value::Bool(relate(rel, left, right)))
        }
        _ => Outcome::Missing(None),
    }
}

fn called_with_one(function: Fun, part: Value) -> Outcome
    ensures { result ≡ outcomes.outcome_of (called function (Is part ∷ [])) }
{
    match (function, part) {
        (Fun::Abs, Value::Int(number)) => whole(abs(number)),
        _ => Outcome::Missing(None),
    }
}

fn called_with_two(function: Fun, first: Value, second: Value) -> Outcome
    ensures { result ≡ outcomes.outcome_of (called function (Is first ∷ (Is second ∷ []))) }
{
    let (Value::Int(a), Value::Int(b)) = (first, second) else {
        return Outcome::Missing(None);
    };
    match function {
        Fun::Div => whole(div(a, b)),
        Fun::Mod => whole(modulo(a, b)),
        Fun::Rem => whole(rem(a, b)),
        Fun::Min => Outcome::Known(Value::Int(least(a, b))),
        Fun::Max => Outcome::Known(Value::Int(greatest(a, b))),
        Fun::Abs => Outcome::Missing(None),
    }
}

/// What an operator makes of an outcome: of a value, and of nothing else.
fn negated_outcome(part: Outcome) -> Outcome
    ensures { result ≡ outcomes.negated_outcome part }
{
    match part {
        Outcome::Known(value) => negated(value),
        Outcome::Failing(kind) => Outcome::Failing(kind),
        Outcome::Missing(number) => Outcome::Missing(number),
    }
}

fn inverted_outcome(part: Outcome) -> Outcome
    ensures { result ≡ outcomes.inverted_outcome part }
{
    match part {
        Outcome::Known(value) => inverted(value),
        Outcome::Failing(kind) => Outcome::Failing(kind),
        Outcome::Missing(number) => Outcome::Missing(number),
    }
}

fn related_outcome(rel: Rel, left: Outcome, right: Outcome) -> Outcome
    ensures { result ≡ outcomes.related_outcome rel left right }
{
    match (left, right) {
        (Outcome::Known(a), Outcome::Known(b)) => related(rel, a, b),
        (Outcome::Known(_), Outcome::Failing(kind)) => Outcome::Failing(kind),
        (Outcome::Known(_), Outcome::Missing(number)) => Outcome::Missing(number),
        (Outcome::Failing(kind), _) => Outcome::Failing(kind),
        (Outcome::Missing(number), _) => Outcome::Missing(number),
    }
}

/// Whether the value of a chain so far is also its value with the next part.
fn is_enough(op: ChainOp, total: Value) -> bool
    ensures { result ≡ outcomes.is_enough op total }
{
    match (op, total) {
        (ChainOp::And, Value::Bool(holds)) => !holds,
        (ChainOp::Or, Value::Bool(holds)) => holds,
        _ => false,
    }
}

fn joined_outcome(op: ChainOp, total: Outcome, part: Outcome) -> Outcome
    ensures { result ≡ outcomes.joined_outcome op total part }
{
    match total {
        Outcome::Known(a) => {
            if is_enough(op, a) {
                return total;
            }
            match part {
                Outcome::Known(b) => applied(op, a, b),
                Outcome::Failing(kind) => Outcome::Failing(kind),
                Outcome::Missing(number) => Outcome::Missing(number),
            }
        }
        Outcome::Failing(kind) => Outcome::Failing(kind),
        Outcome::Missing(number) => Outcome::Missing(number),
    }
}

/// A chain, grouped to the left.
fn chain_outcome(ops: &[ChainOp], parts: &[Outcome]) -> Outcome
    ensures { result ≡ outcomes.chain_outcome ops.now parts.now }
{
    match parts {
        [] => Outcome::Missing(None),
        [first, rest @ ..] => {
            let mut total = *first;
            for (i, part) in rest.iter().enumerate() {
                let Some(op) = ops.get(i) else {
                    break;
                };
                total = joined_outcome(*op, total, *part);
            }
            total
        }
    }
}

/// The branch of the first condition that is true, or else the last one.
fn chosen_outcome(conditions: &[Outcome], branches: &[Outcome], other: Outcome) -> Outcome
    ensures { result ≡ outcomes.chosen_outcome conditions.now branches.now other }
{
    let mut left = branches;
    for condition in conditions {
        match (*condition, left) {
            (Outcome::Known(Value::Bool(true)), [branch, ..]) => return *branch,
            (Outcome::Known(Value::Bool(false)), [_, rest @ ..]) => left = rest,
            (Outcome::Failing(kind), _) => return Outcome::Failing(kind),
            (Outcome::Missing(number), _) => return Outcome::Missing(number),
            _ => return Outcome::Missing(None),
        }
    }
    other
}

/// A call of a function.
fn called_outcome(function: Option<Fun>, parts: &[Outcome]) -> Outcome
    ensures { result ≡ outcomes.called_outcome_by function parts.now }
{
    let Some(function) = function else {
        return Outcome::Missing(None);
    };
    match parts {
        [] => Outcome::Missing(None),
        [Outcome::Known(a)] => called_with_one(function, *a),
        [Outcome::Known(a), Outcome::Known(b)] => called_with_two(function, *a, *b),
        [Outcome::Known(_), Outcome::Known(_), ..] => Outcome::Missing(None),
        [Outcome::Known(_), second, ..] => *second,
        [first, ..] => *first,
    }
}

/// The parts of a name with dots between them.
fn dotted(alloc: Global, text: &[u8], path: &Path) -> Result<Vec<u8>, AllocError>
    ensures { IfOk result (λ name. name.items ≡ spellings.dotted (spellings.idents text.now path.now)) }
{
    let mut name = Vec::new(alloc);
    if let [first, rest @ ..] = path.parts.as_slice() {
        name.extend_from_slice(spelled(text, *first))?;
        for part in rest {
            name.push(b'.')?;
            name.extend_from_slice(spelled(text, *part))?;
        }
    }
    Ok(name)
}

/// The function of a name.
fn function_named(name: &[u8]) -> Option<Fun>
    ensures { result ≡ values.function_named name.now }
{
    if name == b"div".as_slice() {
        Some(Fun::Div)
    } else if name == b"mod".as_slice() {
        Some(Fun::Mod)
    } else if name == b"rem".as_slice() {
        Some(Fun::Rem)
    } else if name == b"abs".as_slice() {
        Some(Fun::Abs)
    } else if name == b"min".as_slice() {
        Some(Fun::Min)
    } else if name == b"max".as_slice() {
        Some(Fun::Max)
    } else {
        None
    }
}

/// Values of names: those of the numbers that a table gives the names.
#[derive(Clone, Copy)]
pub struct Values<'a> {
    pub alloc: Global,
    pub text: &'a [u8],
    pub numbers: &'a Table,
    pub slots: &'a [Option<Value>],
}

impl<'a> Values<'a> {
    fn at(&self, number: usize) -> Outcome
        ensures { result ≡ outcomes.number_outcome self.now.slots.now (Some number) }
    {
        match self.slots.get(number) {
            Some(Some(value)) => Outcome::Known(*value),
            Some(None) => Outcome::Missing(Some(number)),
            None => Outcome::Missing(None),
        }
    }

    fn name(&self, scope: &[u8], path: &Path) -> Result<Outcome, AllocError>
        ensures { IfOk result (λ outcome. outcome ≡ outcomes.name_outcome self.now.text.now self.now.numbers.now self.now.slots.now scope.now (spellings.idents self.now.text.now path.now)) }
    {
        if is_time(self.text, path.parts.as_slice()) {
            return Ok(Outcome::Missing(None));
        }
        let mut name = Vec::from_slice(self.alloc, scope)?;
        name.extend_from_slice(dotted(self.alloc, self.text, path)?.as_slice())?;
        match self.numbers.number(name.as_slice()) {
            Some(number) => Ok(self.at(number)),
            None => Ok(Outcome::Missing(None)),
        }
    }

    /// What several expressions give.
    #[cycle(value)]
    fn all(&self, scope: &[u8], parts: &[TreeExpr]) -> Result<Vec<Outcome>, AllocError>
        ensures { IfOk result (λ all. all.items ≡ map (outcomes.outcome self.now.text.now self.now.numbers.now self.now.slots.now scope.now) parts.now) }
    {
        let mut all = Vec::new(self.alloc);
        for part in parts {
            all.push(self.outcome(scope, part)?)?;
        }
        Ok(all)
    }

    /// What an expression gives that is written in a scope, which is what stands before the names beside it. `and`, `or` and
    /// `if` look at no more parts than their value needs. Memory that is refused is the only error.
    #[cycle(value)]
    pub fn outcome(&self, scope: &[u8], expr: &TreeExpr) -> Result<Outcome, AllocError>
        ensures { IfOk result (λ outcome. outcome ≡ outcomes.outcome self.now.text.now self.now.numbers.now self.now.slots.now scope.now expr.now) }
    {
        match &expr.node {
            TreeNode::Const(value) => Ok(Outcome::Known(*value)),
            TreeNode::Name(path) => self.name(scope, path),
            TreeNode::Call(path, parts) => {
                let name = dotted(self.alloc, self.text, path)?;
                let parts = self.all(scope, parts.as_slice())?;
                Ok(called_outcome(function_named(name.as_slice()), parts.as_slice()))
            }
            TreeNode::Chain(parts, ops) => {
                let parts = self.all(scope, parts.as_slice())?;
                Ok(chain_outcome(ops.as_slice(), parts.as_slice()))
            }
            TreeNode::Relation(rel, left, right) => {
                let left = self.outcome(scope, left.get())?;
                let right = self.outcome(scope, right.get())?;
                Ok(related_outcome(*rel, left, right))
            }
            TreeNode::Neg(part) => Ok(negated_outcome(self.outcome(scope, part.get())?)),
            TreeNode::Not(part) => Ok(inverted_outcome(self.outcome(scope, part.get())?)),
            TreeNode::Power(_, _) => Ok(Outcome::Missing(None)),
            TreeNode::If(conditions, branches, other) => {
                let conditions = self.all(scope, conditions.as_slice())?;
                let branches = self.all(scope, branches.as_slice())?;
                let other = self.outcome(scope, other.get())?;
                Ok(chosen_outcome(conditions.as_slice(), branches.as_slice(), other))
            }
        }
    }
}

/// A parameter: its simple type, and the expression of its value with what stands before the names of its instance.
#[derive(Drop)]
pub struct Parameter<'a> {
    pub kind: Option<NameKind>,
    pub scope: Text,
    pub expr: Option<&'a TreeExpr>,
}

/// The parameters of a model by their numbers.
#[derive(Drop)]
pub struct Parameters<'a> {
    pub alloc: Global,
    pub text: &'a [u8],
    pub numbers: &'a Table,
    pub items: &'a [Parameter<'a>],
}

/// The value of its type that a parameter gets, where it gets one.
fn given_value(kind: Option<NameKind>, value: Value) -> Given
    ensures { result ≡ givens.given_value (values.of_kind kind (Is value)) }
{
    match (kind, value) {
        (Some(NameKind::Integer), Value::Int(_)) => Given::Gives(value),
        (Some(NameKind::Boolean), Value::Bool(_)) => Given::Gives(value),
        _ => Given::Never,
    }
}

/// What a parameter with an expression gets.
fn given_of(kind: Option<NameKind>, outcome: Outcome) -> Given
    ensures { result ≡ givens.given_of kind outcome }
{
    match outcome {
        Outcome::Known(value) => given_value(kind, value),
        Outcome::Failing(_) => Given::Never,
        Outcome::Missing(None) => Given::Never,
        Outcome::Missing(Some(number)) => Given::Waits(number),
    }
}

/// What a parameter without an expression gets.
fn given_zero(kind: Option<NameKind>) -> Given
    ensures { result ≡ givens.given_value (values.zero_of kind) }
{
    match kind {
        Some(NameKind::Integer) => Given::Gives(Value::Int(0)),
        Some(NameKind::Boolean) => Given::Gives(Value::Bool(false)),
        _ => Given::Never,
    }
}

impl<'a> Giver for Parameters<'a> {
    ghost use Rattle.std.specs.Prelude.{map};
    ghost use Rattle.parameter_values.specs.Givens as givens;

    ghost rules = { λ s. givens.rules_by s.text.now s.numbers.now (map givens.valued s.items.now) };

    fn give(&self, values: &[Option<Value>], x: usize) -> Result<Given, AllocError> {
        let Some(parameter) = self.items.get(x) else {
            return Ok(Given::Never);
        };
        match parameter.expr {
            Some(expr) => {
                let values = Values {
                    alloc: self.alloc,
                    text: self.text,
                    numbers: self.numbers,
                    slots: values,
                };
                Ok(given_of(
                    parameter.kind,
                    values.outcome(parameter.scope.as_bytes(), expr)?,
                ))
            }
            None => Ok(given_zero(parameter.kind)),
        }
    }
}

/// The values of the parameters and constants of a model, by their numbers: those that some finite derivation gives, and none
/// for the others. Memory that is refused is the only error.
pub fn parameter_values(
    alloc: Global,
    text: &[u8],
    numbers: &Table,
    items: &[Parameter<'_>],
) -> Result<Vec<Option<Value>>, AllocError>
    ensures { IfOk result (λ found. givens.HaveValues text.now numbers.now (map givens.valued items.now) found.items) }
{
    let parameters = Parameters {
        alloc,
        text,
        numbers,
        items,
    };
    values_of(alloc, &parameters, items.len())
}
