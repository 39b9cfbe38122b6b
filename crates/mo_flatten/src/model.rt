//! The flat model of a class that breaks no rule.
ghost use Rattle.std.specs.Prelude.{◌≡◌, ◌++◌, ◌≤◌, IfOk, OnOk, List, Some, length, map};
ghost use Rattle.std.specs.List.{AllZip};
ghost use Rattle.class_scopes.specs.Tables.{IsTableOf, number_of};
ghost use Rattle.connection_equations.specs.Connections.{pairs};
ghost use Rattle.connection_equations.specs.Sets.{AreEquations};
ghost use Rattle.flat_answer.specs.Flat as flat;
ghost use Rattle.flat_answer.specs.Model.{plain};
ghost use Rattle.flat_expressions.specs.Equations as eqs;
ghost use Rattle.flat_instances.specs.Instances.{variables};
ghost use Rattle.flat_instances.specs.Kept.{seen};
ghost use Rattle.flat_model.specs.Models.{size_limit};
ghost use Rattle.mo_flatten.specs.private.Models as models;
ghost use Rattle.parameter_values.specs.Slots as slots;

use class_scopes::Table;
use connection_equations::{Joiner, connection_equations};
use flat_expressions::{Lowered, Lowering};
use flat_instances::Item;
use flat_model::{FlatName, RawEq, RawModel};
use flat_names::{Namer, name_table, outer_table};
use model_values::ModelValues;
use scope_names::Scopes;
use std::alloc::{AllocError, Global};
use sync_values::List;

/// The names of the model.
fn names_of<'a>(
    alloc: Global,
    scopes: &'a Scopes<'a>,
    items: &[Item<'a>],
    values: &ModelValues,
) -> Result<List<FlatName>, AllocError>
    ensures { IfOk result (λ names. AllZip (flat.IsNameOf scopes.now.named.file.text.now scopes.now.named.file.classes.now (Some scopes.now.named.chosen) (slots.seen values.now.table values.now.found.items)) (plain (variables scopes.now.named.file.text.now scopes.now.named.file.classes.now (map (seen scopes.now.named.file.text.now scopes.now.named.file.classes.now) items.now))) names) }
{
    let outer = outer_table(alloc, &scopes.named.file, scopes.named.chosen)?;
    let namer = Namer {
        alloc,
        file: &scopes.named.file,
        chosen: scopes.named.chosen,
        parameters: &values.table,
        values: values.found.as_slice(),
        outer: &outer,
    };
    namer.names(items)
}

/// The equations and clauses of the instances, without those of connections.
fn lowered_of(
    alloc: Global,
    scopes: &Scopes<'_>,
    items: &[Item<'_>],
    values: &ModelValues,
    names: &[FlatName],
    table: &Table,
) -> Result<Lowered, AllocError>
    requires few { length names.now ≤ size_limit }
    requires table { IsTableOf (map (λ name. name.text) names.now) table.now }
    requires clauses { models.HasFewClauses scopes.now (map (seen scopes.now.named.file.text.now scopes.now.named.file.classes.now) items.now) }
    ensures { IfOk result (models.IsLowered scopes.now (map (seen scopes.now.named.file.text.now scopes.now.named.file.classes.now) items.now) (slots.seen values.now.table values.now.found.items) (number_of table.now)) }
{
    let lowering = Lowering {
        alloc,
        text: scopes.named.file.text,
        parameters: &values.table,
        values: values.found.as_slice(),
        names: table,
    };
    lowering.equations_lowered(scopes.named.file.classes, items)
}

/// The equations of the connections.
fn connections_of(
    alloc: Global,
    scopes: &Scopes<'_>,
    items: &[Item<'_>],
    names: &[FlatName],
    table: &Table,
) -> Result<List<RawEq>, AllocError>
    requires few { length names.now ≤ size_limit }
    requires table { IsTableOf (map (λ name. name.text) names.now) table.now }
    ensures { IfOk result (AreEquations (length names.now) (pairs scopes.now.named.file.text.now scopes.now.named.file.classes.now (number_of table.now) (map (seen scopes.now.named.file.text.now scopes.now.named.file.classes.now) items.now))) }
{
    let joiner = Joiner {
        alloc,
        scopes,
        names: table,
        count: names.len() as u32,
    };
    match connection_equations(&joiner, items) {
        Ok(equations) => Ok(equations),
        Err(_) => Err(AllocError),
    }
}

/// Adds equations behind others.
fn joined(equations: List<RawEq>, others: List<RawEq>) -> Result<List<RawEq>, AllocError>
    ensures { IfOk result (λ all. all ≡ equations ++ others) }
{
    let mut all = equations.into_vec();
    let mut rest = others.into_vec();
    all.append(&mut rest)?;
    Ok(List::from_vec(all))
}

/// The flat model of the chosen class: its names, then the equations of its instances and, last of all, those of its connections.
/// Memory that is refused is the only error.
pub fn model_of<'a>(
    alloc: Global,
    scopes: &'a Scopes<'a>,
    items: &[Item<'a>],
    values: &ModelValues,
) -> Result<RawModel, AllocError>
    requires names { models.HasFewNames scopes.now (map (seen scopes.now.named.file.text.now scopes.now.named.file.classes.now) items.now) }
    requires clauses { models.HasFewClauses scopes.now (map (seen scopes.now.named.file.text.now scopes.now.named.file.classes.now) items.now) }
    ensures { IfOk result (models.IsModelOf scopes.now (map (seen scopes.now.named.file.text.now scopes.now.named.file.classes.now) items.now) (slots.seen values.now.table values.now.found.items)) }
{
    let names = names_of(alloc, scopes, items, values)?;
    let numbers = name_table(alloc, names.as_slice())?;
    let lowered = lowered_of(
        alloc,
        scopes,
        items,
        values,
        names.as_slice(),
        &numbers.table,
    )?;
    let connections = connections_of(alloc, scopes, items, names.as_slice(), &numbers.table)?;
    let Lowered { equations, clauses } = lowered;
    let equations = joined(equations, connections)?;
    Ok(RawModel {
        names,
        equations,
        clauses,
    })
}
