//! Operators on parts that are read.
ghost use Rattle.std.specs.Prelude.{◌≡◌, [], ◌∷◌, IfOk, map, option_map, length, Some, None};
ghost use Rattle.std.specs.List.{list_all, list_any};
ghost use Rattle.flat_model.specs.Typing as typing;
ghost use Rattle.flat_model.specs.declared.expression.Expr.TheVariants as tree;
ghost use Rattle.flat_types.specs.Outcomes as spec;
ghost use Rattle.flat_types.specs.Readings as node;
ghost use Rattle.flat_types.specs.private.Shapes as shapes;

use crate::ends::TypeCode;
use crate::named::type_of_part;
use crate::outcome::Outcome;
use flat_model::{Expr, FlatName, Fun, NameKind};
use sqlite_items::Boxed;
use std::alloc::{AllocError, Global};
use sync_values::{ChainOp, List, Rel, Value};

pub fn type_of_value(value: Value) -> NameKind
    ensures { result ≡ typing.type_of_value value }
{
    match value {
        Value::Int(_) => NameKind::Integer,
        Value::Bool(_) => NameKind::Boolean,
    }
}

/// Whether a type is this one, which is no Clock.
pub fn is_type(kind: NameKind, found: Option<NameKind>) -> bool
    ensures { result ≡ typing.is_type kind found }
{
    match (kind, found) {
        (NameKind::Integer, Some(NameKind::Integer)) => true,
        (NameKind::Boolean, Some(NameKind::Boolean)) => true,
        _ => false,
    }
}

/// This type, where a part has it.
fn same_type(kind: NameKind, found: Option<NameKind>) -> Option<NameKind>
    ensures { result ≡ typing.typed_if (typing.is_type kind found) kind }
{
    is_type(kind, found).then_some(kind)
}

fn is_sum(op: ChainOp) -> bool
    ensures { result ≡ typing.goes_with ChainOp.Plus op }
{
    match op {
        ChainOp::Plus | ChainOp::Minus => true,
        _ => false,
    }
}

/// Whether two operators may stand in one chain.
fn goes_with(first: ChainOp, op: ChainOp) -> bool
    ensures { result ≡ typing.goes_with first op }
{
    match (first, op) {
        (ChainOp::Plus | ChainOp::Minus, _) => is_sum(op),
        (ChainOp::Times, ChainOp::Times) => true,
        (ChainOp::And, ChainOp::And) => true,
        (ChainOp::Or, ChainOp::Or) => true,
        _ => false,
    }
}

fn go_with(first: ChainOp, ops: &[ChainOp]) -> bool
    ensures { result ≡ list_all (typing.goes_with first) ops.now }
{
    ops.iter().all(|op| goes_with(first, *op))
}

/// The type of the parts and of the result of an operator; a quotient has none.
fn type_of_operator(op: ChainOp) -> Option<NameKind>
    ensures { result ≡ typing.type_of_operator op }
{
    match op {
        ChainOp::Plus | ChainOp::Minus | ChainOp::Times => Some(NameKind::Integer),
        ChainOp::And | ChainOp::Or => Some(NameKind::Boolean),
        ChainOp::Over => None,
    }
}

/// How many Integers a function takes.
pub fn arity(function: Fun) -> usize
    ensures { result ≡ typing.arity function }
{
    match function {
        Fun::Abs => 1,
        _ => 2,
    }
}

/// Whether all parts are expressions of a type.
fn are_of_type(names: &[FlatName], kind: NameKind, parts: &[Outcome]) -> bool
    ensures { result ≡ list_all (typing.is_type kind) (node.types_of names.now parts.now) }
{
    for part in parts {
        if !is_type(kind, type_of_part(names, part)) {
            return false;
        }
    }
    true
}

/// The type of the parts of a chain, whose operators are of one kind and one fewer than the parts.
fn operand_type(count: usize, ops: &[ChainOp]) -> Option<NameKind>
    ensures { result ≡ shapes.operand_type count ops.now }
{
    let (op, rest) = ops.split_first()?;
    if count == rest.len() + 2 && go_with(*op, rest) {
        type_of_operator(*op)
    } else {
        None
    }
}

/// The type of a chain.
fn chain_type(names: &[FlatName], parts: &[Outcome], ops: &[ChainOp]) -> Option<NameKind>
    ensures { result ≡ typing.chain_type (node.types_of names.now parts.now) ops.now }
{
    let kind = operand_type(parts.len(), ops)?;
    are_of_type(names, kind, parts).then_some(kind)
}

/// The type of a relation of two sides.
fn relation_type(left: Option<NameKind>, right: Option<NameKind>) -> Option<NameKind>
    ensures { result ≡ typing.relation_type left right }
{
    is_type(left?, right).then_some(NameKind::Boolean)
}

/// The type of a choice.
fn if_type(
    names: &[FlatName],
    conditions: &[Outcome],
    branches: &[Outcome],
    other: Option<NameKind>,
) -> Option<NameKind>
    ensures { result ≡ typing.if_type (node.types_of names.now conditions.now) (node.types_of names.now branches.now) other }
{
    let kind = other?;
    let taken = 0 < conditions.len()
        && branches.len() == conditions.len()
        && are_of_type(names, NameKind::Boolean, conditions)
        && are_of_type(names, kind, branches);
    taken.then_some(kind)
}

/// The first rule that is broken among parts, left to right.
pub fn first_broken(parts: &[Outcome]) -> Option<TypeCode>
    ensures { result ≡ spec.first_broken parts.now }
{
    for part in parts {
        if let Outcome::Broken(code) = part {
            return Some(*code);
        }
    }
    None
}

/// The rule that a part breaks.
pub fn broken(part: &Outcome) -> Option<TypeCode>
    ensures { result ≡ spec.first_broken (part.now ∷ []) }
{
    match part {
        Outcome::Broken(code) => Some(*code),
        _ => None,
    }
}

/// The first rule that is broken among conditions and branches in the order of the text, and the last branch.
pub fn first_broken_in_turn(
    conditions: &[Outcome],
    branches: &[Outcome],
    other: &Outcome,
) -> Option<TypeCode>
    ensures { result ≡ spec.first_broken (node.in_turn conditions.now branches.now other.now) }
{
    let mut at = 0;
    'turns: while at < conditions.len() && at < branches.len() {
        if let Some(code) = either_broken(&conditions[at], &branches[at]) {
            return Some(code);
        }
        at += 1;
    }
    broken(other)
}

/// The parts as expressions, where all are.
fn as_values(
    alloc: Global,
    names: &[FlatName],
    parts: List<Outcome>,
) -> Result<Option<List<Expr>>, AllocError>
    ensures { IfOk result (λ found. found ≡ spec.as_values names.now parts) }
{
    let mut found = List::new(alloc);
    for part in parts.into_vec() {
        match part.into_value(names) {
            Some((expr, _)) => found.push(expr)?,
            None => return Ok(None),
        }
    }
    Ok(Some(found))
}

/// An expression of parts, where the types fit.
fn made(kind: Option<NameKind>, expr: Option<Expr>) -> Outcome
    ensures { result ≡ spec.made kind expr }
{
    match kind.zip(expr) {
        Some((kind, expr)) => Outcome::Valued(expr, kind),
        None => Outcome::Broken(TypeCode::Y1),
    }
}

/// An expression in a box of its own, where there is one.
fn boxed(alloc: Global, found: Option<(Expr, NameKind)>) -> Result<Option<Boxed<Expr>>, AllocError>
    ensures { IfOk result (λ it. it ≡ option_map (λ typed. typed.0) found) }
{
    match found {
        Some((expr, _)) => Ok(Some(Boxed::new(alloc, expr)?)),
        None => Ok(None),
    }
}

fn is_quotient(op: ChainOp) -> bool
    ensures { result ≡ node.is_quotient op }
{
    match op {
        ChainOp::Over => true,
        _ => false,
    }
}

fn has_quotient(ops: &[ChainOp]) -> bool
    ensures { result ≡ list_any node.is_quotient ops.now }
{
    ops.iter().any(|op| is_quotient(*op))
}

/// A chain of these parts.
fn chained(
    alloc: Global,
    parts: Option<List<Expr>>,
    ops: &[ChainOp],
) -> Result<Option<Expr>, AllocError>
    ensures { IfOk result (λ it. it ≡ option_map (λ exprs. tree.Chain exprs ops.now) parts) }
{
    let Some(parts) = parts else {
        return Ok(None);
    };
    let ops = Vec::from_slice(alloc, ops)?;
    Ok(Some(Expr::Chain(parts, List::from_vec(ops))))
}

/// A chain, where its parts break no rule.
pub fn chain(
    alloc: Global,
    names: &[FlatName],
    parts: List<Outcome>,
    ops: &[ChainOp],
) -> Result<Outcome, AllocError>
    ensures { IfOk result (λ found. found ≡ node.after parts (node.chain_found names.now parts ops.now)) }
{
    if let Some(code) = first_broken(parts.as_slice()) {
        return Ok(Outcome::Broken(code));
    }
    if has_quotient(ops) {
        return Ok(Outcome::Broken(TypeCode::Y5));
    }
    let kind = chain_type(names, parts.as_slice(), ops);
    let parts = as_values(alloc, names, parts)?;
    Ok(made(kind, chained(alloc, parts, ops)?))
}

/// Both sides of a relation as expressions, where both are.
fn related(
    alloc: Global,
    rel: Rel,
    left: Option<(Expr, NameKind)>,
    right: Option<(Expr, NameKind)>,
) -> Result<Option<Expr>, AllocError>
    ensures { IfOk result (λ it. it ≡ node.both_of (λ a b. tree.Relation rel a b) left right) }
{
    let Some(((left, _), (right, _))) = left.zip(right) else {
        return Ok(None);
    };
    let left = Boxed::new(alloc, left);
    let right = Boxed::new(alloc, right);
    Ok(Some(Expr::Relation(rel, left?, right?)))
}

/// A relation, where its sides break no rule.
pub fn relation(
    alloc: Global,
    names: &[FlatName],
    rel: Rel,
    left: Outcome,
    right: Outcome,
) -> Result<Outcome, AllocError>
    ensures { IfOk result (λ found. found ≡ node.after_both left right (node.relation_found names.now rel left right)) }
{
    if let Some(code) = either_broken(&left, &right) {
        return Ok(Outcome::Broken(code));
    }
    let kind = relation_type(type_of_part(names, &left), type_of_part(names, &right));
    let expr = related(alloc, rel, left.into_value(names), right.into_value(names))?;
    Ok(made(kind, expr))
}

/// The first rule that one of two parts breaks.
pub fn either_broken(left: &Outcome, right: &Outcome) -> Option<TypeCode>
    ensures { result ≡ spec.first_broken (left.now ∷ right.now ∷ []) }
{
    match (left, right) {
        (Outcome::Broken(code), _) => Some(*code),
        (_, Outcome::Broken(code)) => Some(*code),
        _ => None,
    }
}

/// A number with the other sign, where it breaks no rule.
pub fn negated(alloc: Global, names: &[FlatName], part: Outcome) -> Result<Outcome, AllocError>
    ensures { IfOk result (λ found. found ≡ node.after_one part (node.single_found names.now (λ it. tree.Neg it) NameKind.Integer part)) }
{
    if let Some(code) = broken(&part) {
        return Ok(Outcome::Broken(code));
    }
    let kind = same_type(NameKind::Integer, type_of_part(names, &part));
    let part = boxed(alloc, part.into_value(names))?;
    Ok(made(kind, part.map(Expr::Neg)))
}

/// What is not, where it breaks no rule.
pub fn inverted(alloc: Global, names: &[FlatName], part: Outcome) -> Result<Outcome, AllocError>
    ensures { IfOk result (λ found. found ≡ node.after_one part (node.single_found names.now (λ it. tree.Not it) NameKind.Boolean part)) }
{
    if let Some(code) = broken(&part) {
        return Ok(Outcome::Broken(code));
    }
    let kind = same_type(NameKind::Boolean, type_of_part(names, &part));
    let part = boxed(alloc, part.into_value(names))?;
    Ok(made(kind, part.map(Expr::Not)))
}

/// A choice of these parts.
fn chosen(
    alloc: Global,
    conditions: Option<List<Expr>>,
    branches: Option<List<Expr>>,
    other: Option<(Expr, NameKind)>,
) -> Result<Option<Expr>, AllocError>
    ensures { IfOk result (λ it. it ≡ node.all_three conditions branches other) }
{
    let Some(((conditions, branches), (other, _))) = conditions.zip(branches).zip(other) else {
        return Ok(None);
    };
    let other = Boxed::new(alloc, other)?;
    Ok(Some(Expr::If(conditions, branches, other)))
}

/// A choice, where its parts break no rule.
pub fn choice(
    alloc: Global,
    names: &[FlatName],
    conditions: List<Outcome>,
    branches: List<Outcome>,
    other: Outcome,
) -> Result<Outcome, AllocError>
    ensures { IfOk result (λ found. found ≡ node.after (node.in_turn conditions branches other) (node.if_found names.now conditions branches other)) }
{
    if let Some(code) = first_broken_in_turn(conditions.as_slice(), branches.as_slice(), &other) {
        return Ok(Outcome::Broken(code));
    }
    let kind = if_type(
        names,
        conditions.as_slice(),
        branches.as_slice(),
        type_of_part(names, &other),
    );
    let conditions = as_values(alloc, names, conditions);
    let branches = as_values(alloc, names, branches);
    let expr = chosen(alloc, conditions?, branches?, other.into_value(names))?;
    Ok(made(kind, expr))
}

/// A call of an arithmetic function, whose arguments break no rule.
pub fn arithmetic(
    alloc: Global,
    names: &[FlatName],
    function: Fun,
    parts: List<Outcome>,
) -> Result<Outcome, AllocError>
    ensures { IfOk result (λ found. found ≡ node.arithmetic names.now function parts) }
{
    if parts.len() != arity(function) {
        return Ok(Outcome::Broken(TypeCode::Y3));
    }
    let taken = are_of_type(names, NameKind::Integer, parts.as_slice());
    let parts = as_values(alloc, names, parts)?;
    let call = match parts {
        Some(parts) => Some(Expr::Apply(function, parts)),
        None => None,
    };
    Ok(made(taken.then_some(NameKind::Integer), call))
}
