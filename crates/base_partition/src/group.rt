//! Names and nodes in classes, and classes in base partitions.
ghost use Rattle.std.specs.Prelude.{IfOk};
ghost use Rattle.clock_terms.specs.Said.{AreTermsOf};
ghost use Rattle.base_partition.specs.private.Grouped.{IsGrouped};

use crate::joining::joined;
use crate::marking::marks;
use crate::member::members;
use crate::numbering::numbered;
use crate::placing::places;
use clock_terms::{Classes, Terms};
use flat_model::FlatModel;
use std::alloc::Global;
use sync_values::{List, NoMemory};

/// The classes of a model, which of them are marked as unclocked, and the number of base partitions.
#[derive(Drop)]
pub(crate) struct Grouped {
    pub classes: Classes,
    pub unclocked: List<bool>,
    pub bases: usize,
}

pub(crate) fn divide(alloc: Global, flat: &FlatModel, terms: &Terms) -> Result<Grouped, NoMemory>
    requires { AreTermsOf flat.now terms.now }
    ensures { IfOk result (IsGrouped flat.now) }
{
    let members = members(alloc, flat.names.as_slice(), terms.nodes.len())?;
    let Ok(count) = u32::try_from(members.len()) else {
        return Err(NoMemory);
    };
    let numbers = numbered(alloc, count, &terms.joins, members.as_slice())?;
    let firsts = numbers.firsts;
    let class_of = numbers.places;
    let Ok(class_count) = u32::try_from(firsts.len()) else {
        return Err(NoMemory);
    };
    let clocked = marks(
        alloc,
        firsts.len(),
        class_of.as_slice(),
        members.as_slice(),
        terms.clocked.as_slice(),
    )?;
    let unclocked = marks(
        alloc,
        firsts.len(),
        class_of.as_slice(),
        members.as_slice(),
        terms.unclocked.as_slice(),
    )?;
    let pairs = joined(
        alloc,
        class_of.as_slice(),
        members.as_slice(),
        terms.conversions.as_slice(),
    )?;
    let partitions = numbered(alloc, class_count, &pairs, clocked.as_slice())?;
    let places = places(alloc, flat, terms.nodes.as_slice(), firsts.as_slice())?;
    let bases = partitions.firsts.len();
    let classes = Classes {
        class_of,
        clocked,
        partition: partitions.places,
        places,
    };
    Ok(Grouped {
        classes,
        unclocked,
        bases,
    })
}
