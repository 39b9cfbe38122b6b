//! Members of classes: the names that are no inputs, and the nodes.
ghost use Rattle.std.specs.Prelude.{◌≡◌, IfOk, slice_index_or, false};
ghost use Rattle.base_partition.specs.private.Members.{members_of};

use flat_model::FlatName;
use std::alloc::{AllocError, Global};
use sync_values::List;

/// Whether each name, and then each node, is a member of a class.
pub(crate) fn members(
    alloc: Global,
    names: &[FlatName],
    nodes: usize,
) -> Result<List<bool>, AllocError>
    ensures { IfOk result (λ members. members ≡ members_of names.now nodes) }
{
    let mut members = List::new(alloc);
    for name in names {
        members.push(!name.input)?;
    }
    for _node in 0..nodes {
        members.push(true)?;
    }
    Ok(members)
}

/// The flag at a place; none is set past the end.
pub(crate) fn flag_in(flags: &[bool], at: u32) -> bool
    ensures { result ≡ slice_index_or flags.now at false }
{
    flags.get(at as usize).copied().unwrap_or(false)
}

/// The number at a place, or 0 past the end.
pub(crate) fn number_in(numbers: &[u32], at: u32) -> u32
    ensures { result ≡ slice_index_or numbers.now at 0 }
{
    numbers.get(at as usize).copied().unwrap_or(0)
}
