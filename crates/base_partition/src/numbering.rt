//! Numbers of classes: a class is numbered by its first member.
ghost use Rattle.std.specs.Prelude.{◌≡◌, ℕ, ◌+◌, ◌<◌, ◌≤◌, true, length, List, IfOk, OnOk, slice_index_or, []};
ghost use Rattle.mo_connect.specs.Chain.{AreBelow};
ghost use Rattle.base_partition.specs.private.Numbered.{AreClassNumbers, AreNumbers, AreTogether, HasFirsts};

use crate::first::firsts;
use mo_connect::Pair;
use std::alloc::{AllocError, Global};
use sync_values::{List, NoMemory};

/// The first members of classes, rising, and for each number the place of its own first one; 0 for no member.
#[derive(Drop)]
pub(crate) struct Numbers {
    pub firsts: List<u32>,
    pub places: List<u32>,
}

fn note(it: &mut Numbers, first: &[u32], members: &[bool], i: u32) -> Result<(), AllocError>
    requires within { i < length first.now }
    requires length { length members.now ≡ length first.now }
    requires firsts { HasFirsts first.now members.now }
    requires numbers { AreNumbers first.now members.now i it.old.firsts it.old.places }
    ensures { OnOk result (AreNumbers first.now members.now (i + 1) it.new.firsts it.new.places) }
{
    if !members[i as usize] {
        return it.places.push(0);
    }
    let own = first[i as usize];
    if own == i {
        let Ok(place) = u32::try_from(it.firsts.len()) else {
            return Err(AllocError);
        };
        it.firsts.push(i)?;
        return it.places.push(place);
    }
    let place = it.places.as_slice()[own as usize];
    it.places.push(place)
}

/// Numbers the members by their firsts.
pub(crate) fn number(alloc: Global, first: &[u32], members: &[bool]) -> Result<Numbers, AllocError>
    requires length { length members.now ≡ length first.now }
    requires firsts { HasFirsts first.now members.now }
    ensures { IfOk result (λ it. AreNumbers first.now members.now (length first.now) it.firsts it.places) }
{
    let Ok(count) = u32::try_from(first.len()) else {
        return Err(AllocError);
    };
    let mut it = Numbers {
        firsts: List::new(alloc),
        places: List::new(alloc),
    };
    for i in 0..count {
        note(&mut it, first, members, i)?;
    }
    Ok(it)
}

/// Numbers the members, where those that a chain of pairs joins are of one class.
pub(crate) fn numbered(
    alloc: Global,
    count: u32,
    pairs: &List<Pair>,
    members: &[bool],
) -> Result<Numbers, NoMemory>
    requires below { AreBelow count pairs.now }
    requires length { length members.now ≡ count }
    requires together { AreTogether pairs.now members.now }
    ensures { IfOk result (λ it. AreClassNumbers pairs.now members.now it.firsts it.places) }
{
    let first = List::from_vec(firsts(alloc, count, pairs)?);
    Ok(number(alloc, first.as_slice(), members)?)
}
