//! How many pairs the connects of instances join.
ghost use Rattle.std.specs.Prelude.{◌≡◌, ◌≤◌, IfOk, length, map, min};
ghost use Rattle.class_scopes.specs.Tables.{number_of};
ghost use Rattle.flat_instances.specs.Instances.{variables};
ghost use Rattle.flat_instances.specs.Kept as kept;
ghost use Rattle.connection_equations.specs.Connections as connections;
ghost use Rattle.flat_model.specs.Models.{size_limit};
ghost use Rattle.instance_sizes.specs.Counts as counts;

use crate::names::{free_names, table_of_names};
use connection_equations::Joiner;
use flat_instances::Item;
use instance_totals::added;
use item_sizes::MANY_EQUATIONS;
use scope_names::Scopes;
use std::alloc::{AllocError, Global};
use std::slice::from_ref;

/// How many pairs the connects of an item join.
fn item_pairs(joiner: &Joiner<'_>, item: &Item<'_>) -> Result<usize, AllocError>
    ensures { IfOk result (λ count. count ≡ length (connections.kept_pairs joiner.now.scopes.now.named.file.text.now joiner.now.scopes.now.named.file.classes.now (number_of joiner.now.names.now) item.now)) }
{
    let pairs = joiner.pairs(from_ref(item))?;
    Ok(pairs.len())
}

/// How many pairs the connects of items join, or one more than the limit of equations.
fn joined_pairs(joiner: &Joiner<'_>, items: &[Item<'_>]) -> Result<usize, AllocError>
    ensures { IfOk result (λ count. count ≡ min (length (connections.pairs joiner.now.scopes.now.named.file.text.now joiner.now.scopes.now.named.file.classes.now (number_of joiner.now.names.now) (map (kept.seen joiner.now.scopes.now.named.file.text.now joiner.now.scopes.now.named.file.classes.now) items.now))) MANY_EQUATIONS) }
{
    let mut count = 0;
    for item in items {
        if count == MANY_EQUATIONS {
            return Ok(count);
        }
        count = added(count, item_pairs(joiner, item)?, MANY_EQUATIONS);
    }
    Ok(count)
}

/// How many pairs the connects of a model's items join, or one more than the limit of equations. Memory that is refused is the
/// only error.
pub fn pair_count(
    alloc: Global,
    scopes: &Scopes<'_>,
    items: &[Item<'_>],
) -> Result<usize, AllocError>
    requires { length (variables scopes.now.named.file.text.now scopes.now.named.file.classes.now (map (kept.seen scopes.now.named.file.text.now scopes.now.named.file.classes.now) items.now)) ≤ size_limit }
    ensures { IfOk result (λ count. count ≡ min (length (connections.pairs scopes.now.named.file.text.now scopes.now.named.file.classes.now (counts.number_in scopes.now.named.file.text.now scopes.now.named.file.classes.now (map (kept.seen scopes.now.named.file.text.now scopes.now.named.file.classes.now) items.now)) (map (kept.seen scopes.now.named.file.text.now scopes.now.named.file.classes.now) items.now))) MANY_EQUATIONS) }
{
    let found = free_names(alloc, items)?;
    let names = found.as_slice();
    let table = table_of_names(alloc, names)?;
    let count = names.len() as u32;
    let joiner = Joiner {
        alloc,
        scopes,
        names: &table,
        count,
    };
    let pairs = joined_pairs(&joiner, items)?;
    Ok(pairs)
}
