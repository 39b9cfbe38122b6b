//! The order in which parts come before wholes.
ghost use Rattle.std.specs.Prelude.{◌≡◌, IfOk, map, Some};
ghost use Rattle.class_scopes.specs.Reached.{AreReached};
ghost use Rattle.class_order.specs.Orders as orders;
ghost use Rattle.class_order.specs.private.Ranks as meaning;

use crate::ranks::{Placed, by_place, part_graph, ranks_of};
use class_scopes::{NameCode, Named, RuleEnd};
use mo_order::{OrderEnd, ordered};
use std::alloc::{AllocError, Global};

/// The class of a rank.
fn class_at(placed: &[Placed], rank: usize) -> usize
    ensures { result ≡ meaning.class_at placed.now rank }
{
    match placed.get(rank) {
        Some(entry) => entry.class,
        None => 0,
    }
}

/// The place of the name of the class of a rank.
fn place_at(placed: &[Placed], rank: usize) -> u32
    ensures { result ≡ meaning.place_at placed.now rank }
{
    match placed.get(rank) {
        Some(entry) => entry.place,
        None => 0,
    }
}

/// The classes of ranks.
fn classes_at(alloc: Global, placed: &[Placed], ranks: &[usize]) -> Result<Vec<usize>, AllocError>
    ensures { IfOk result (λ classes. classes.items ≡ map (meaning.class_at placed.now) ranks.now) }
{
    let mut classes = Vec::new(alloc);
    for rank in ranks {
        classes.push(class_at(placed, *rank))?;
    }
    Ok(classes)
}

/// The reached classes in an order in which the classes of the components of a class stand before it. The error is that N4
/// is broken, with the least place of the name of a class that contains itself, or that memory was refused.
pub fn class_order(alloc: Global, named: &Named<'_>) -> Result<Vec<usize>, RuleEnd>
    requires { AreReached named.now.file.text.now named.now.file.classes.now named.now.chosen named.now.reached.items }
    ensures { orders.Orders named.now.file.text.now named.now.file.classes.now named.now.chosen result }
{
    let placed = by_place(alloc, named)?;
    let found = placed.as_slice();
    let ranks = ranks_of(alloc, named.file.classes.len(), found)?;
    let graph = part_graph(alloc, &named.file, found, ranks.as_slice())?;
    match ordered(alloc, graph.as_slice()) {
        Ok(order) => {
            let classes = classes_at(alloc, found, order.as_slice())?;
            Ok(classes)
        }
        Err(OrderEnd::Cycle(rank)) => Err(RuleEnd::Broken(NameCode::N4, place_at(found, rank))),
        Err(OrderEnd::NoMemory) => Err(RuleEnd::NoMemory),
    }
}
