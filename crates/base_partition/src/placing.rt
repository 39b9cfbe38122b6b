//! Places of classes.
ghost use Rattle.std.specs.Prelude.{◌≡◌, ◌<◌, ◌+◌, length, map, All, IfOk};
ghost use Rattle.clock_terms.specs.Classing.{IsPlaceOf};
ghost use Rattle.clock_terms.specs.Nodes.{entry, nodes_of};
ghost use Rattle.base_partition.specs.private.Placed.{ArePlaces};

use clock_terms::NodeOf;
use flat_model::{FlatModel, Place};
use std::alloc::{AllocError, Global};
use sync_values::{List, Text};

/// The name, or else the equation of the node.
fn place(alloc: Global, flat: &FlatModel, nodes: &[NodeOf], first: u32) -> Result<Place, AllocError>
    requires nodes { nodes.now ≡ map entry (nodes_of flat.now) }
    requires within { first < length flat.now.names + length nodes.now }
    ensures { IfOk result (IsPlaceOf flat.now first) }
{
    match flat.names.get(first as usize) {
        Some(name) => Ok(Place::Name(Text::from_bytes(alloc, name.text.as_bytes())?)),
        None => Ok(Place::Equation(nodes[first as usize - flat.names.len()].equation)),
    }
}

/// The place of each class, of which these are the first members.
pub(crate) fn places(
    alloc: Global,
    flat: &FlatModel,
    nodes: &[NodeOf],
    firsts: &[u32],
) -> Result<List<Place>, AllocError>
    requires nodes { nodes.now ≡ map entry (nodes_of flat.now) }
    requires within { All (λ first. first < length flat.now.names + length nodes.now) firsts.now }
    ensures { IfOk result (ArePlaces flat.now firsts.now) }
{
    let mut places = List::new(alloc);
    for first in firsts {
        places.push(place(alloc, flat, nodes, *first)?)?;
    }
    Ok(places)
}
