//! What values still miss.
ghost use Rattle.std.specs.Prelude.{◌≡◌, IfOk, OnOk, ◌++◌, length, map, flat_map, option_map};
ghost use Rattle.std.specs.List.{position_from};
ghost use Rattle.mo_order.specs.Graphs.{graph_of};
ghost use Rattle.class_scopes.specs.Spelled as spellings;
ghost use Rattle.parameter_values.specs.Givens as givens;
ghost use Rattle.value_rules.specs.Needs as wanted;
ghost use Rattle.value_rules.specs.private.Missing as meaning;

use class_scopes::is_time;
use flat_model::NameKind;
use mo_parser::{Path, TreeExpr, spelled};
use parameter_values::{Outcome, Parameter, Values};
use scope_names::names_in;
use std::alloc::{AllocError, Global};
use sync_values::Value;

/// The values that a variable needs: its own where it is a parameter or a constant, and its start. Where one needs no
/// expression, it has none.
#[derive(Drop)]
pub struct Needs<'a> {
    pub own: Parameter<'a>,
    pub start: Parameter<'a>,
}

/// The parts of a name with dots between them.
fn dotted(alloc: Global, text: &[u8], path: &Path) -> Result<Vec<u8>, AllocError>
    ensures { IfOk result (λ name. name.items ≡ spellings.dotted (spellings.idents text.now path.now)) }
{
    let mut name = Vec::new(alloc);
    if let [first, rest @ ..] = path.parts.as_slice() {
        name.extend_from_slice(spelled(text, *first))?;
        for part in rest {
            name.push(b'.')?;
            name.extend_from_slice(spelled(text, *part))?;
        }
    }
    Ok(name)
}

/// Whether what was evaluated is no value of a type.
fn is_no_value(kind: Option<NameKind>, outcome: Outcome) -> bool
    ensures { result ≡ meaning.is_no_value kind outcome }
{
    match (kind, outcome) {
        (Some(NameKind::Integer), Outcome::Known(Value::Int(_))) => false,
        (Some(NameKind::Boolean), Outcome::Known(Value::Bool(_))) => false,
        _ => true,
    }
}

/// Whether a number below the count has no value.
fn is_missing(slots: &[Option<Value>], count: usize, number: usize) -> bool
    ensures { result ≡ meaning.is_missing slots.now count number }
{
    if number >= count {
        return false;
    }
    match slots.get(number) {
        Some(Some(_)) => false,
        Some(None) | None => true,
    }
}

/// Adds the number of the parameter that a name in a scope stands for, where it has no value.
fn add_missing(
    values: &Values<'_>,
    count: usize,
    scope: &[u8],
    path: &Path,
    found: &mut Vec<usize>,
) -> Result<(), AllocError>
    ensures { OnOk result (found.new.items ≡ found.old.items ++ meaning.missing_read values.now.text.now values.now.numbers.now values.now.slots.now count scope.now path.now) }
{
    if is_time(values.text, path.parts.as_slice()) {
        return Ok(());
    }
    let mut name = Vec::from_slice(values.alloc, scope)?;
    name.extend_from_slice(dotted(values.alloc, values.text, path)?.as_slice())?;
    match values.numbers.number(name.as_slice()) {
        Some(number) => {
            if is_missing(values.slots, count, number) {
                found.push(number)?;
            }
            Ok(())
        }
        None => Ok(()),
    }
}

/// The numbers of the parameters without a value that an expression reads, as it is written.
fn missing_reads(
    values: &Values<'_>,
    count: usize,
    scope: &[u8],
    expr: &TreeExpr,
) -> Result<Vec<usize>, AllocError>
    ensures { IfOk result (λ found. found.items ≡ meaning.missing_reads values.now.text.now values.now.numbers.now values.now.slots.now count scope.now expr.now) }
{
    let mut paths = Vec::new(values.alloc);
    names_in(expr, &mut paths)?;
    let mut found = Vec::new(values.alloc);
    for path in paths.iter() {
        add_missing(values, count, scope, path, &mut found)?;
    }
    Ok(found)
}

/// Where an expression gives no value of its type: the parameters without a value that it reads.
fn missing_of(
    values: &Values<'_>,
    count: usize,
    need: &Parameter<'_>,
) -> Result<Option<Vec<usize>>, AllocError>
    ensures { IfOk result (λ found. option_map (λ reads. reads.items) found ≡ meaning.missing_of values.now.text.now values.now.numbers.now values.now.slots.now count (givens.valued need.now)) }
{
    let Some(expr) = need.expr else {
        return Ok(None);
    };
    let outcome = values.outcome(need.scope.as_bytes(), expr)?;
    if !is_no_value(need.kind, outcome) {
        return Ok(None);
    }
    let reads = missing_reads(values, count, need.scope.as_bytes(), expr)?;
    Ok(Some(reads))
}

/// The parameters that a parameter without a value waits for.
fn waiting(
    values: &Values<'_>,
    count: usize,
    need: &Parameter<'_>,
) -> Result<Vec<usize>, AllocError>
    ensures { IfOk result (λ reads. reads.items ≡ meaning.waiting values.now.text.now values.now.numbers.now values.now.slots.now count (givens.valued need.now)) }
{
    let alloc = values.alloc;
    match missing_of(values, count, need)? {
        Some(reads) => Ok(reads),
        None => Ok(Vec::new(alloc)),
    }
}

/// For each parameter those that it waits for.
pub fn waiting_graph(
    values: &Values<'_>,
    parameters: &[Parameter<'_>],
) -> Result<Vec<Vec<usize>>, AllocError>
    ensures { IfOk result (λ graph. graph_of graph.items ≡ map (meaning.waiting values.now.text.now values.now.numbers.now values.now.slots.now (length parameters.now)) (map givens.valued parameters.now)) }
{
    let mut graph = Vec::new(values.alloc);
    for parameter in parameters {
        let reads = waiting(values, parameters.len(), parameter)?;
        graph.push(reads)?;
    }
    Ok(graph)
}

/// Whether an expression gives no value of its type, though all parameters that it reads have values.
fn fails(values: &Values<'_>, count: usize, need: &Parameter<'_>) -> Result<bool, AllocError>
    ensures { IfOk result (λ fails. fails ≡ meaning.fails values.now.text.now values.now.numbers.now values.now.slots.now count (givens.valued need.now)) }
{
    match missing_of(values, count, need)? {
        Some(reads) => Ok(reads.as_slice().is_empty()),
        None => Ok(false),
    }
}

fn either_fails(values: &Values<'_>, count: usize, needs: &Needs<'_>) -> Result<bool, AllocError>
    ensures { IfOk result (λ fails. fails ≡ meaning.either_fails values.now.text.now values.now.numbers.now values.now.slots.now count (wanted.needed needs.now)) }
{
    let own = fails(values, count, &needs.own)?;
    let start = fails(values, count, &needs.start)?;
    Ok(own || start)
}

/// The first variable of which something fails.
pub fn first_failing(
    values: &Values<'_>,
    count: usize,
    variables: &[Needs<'_>],
) -> Result<Option<usize>, AllocError>
    ensures { IfOk result (λ first. first ≡ position_from (meaning.failing values.now.text.now values.now.numbers.now values.now.slots.now count) 0 variables.now) }
{
    for (number, needs) in variables.iter().enumerate() {
        if either_fails(values, count, needs)? {
            return Ok(Some(number));
        }
    }
    Ok(None)
}
