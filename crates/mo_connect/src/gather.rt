//! The numbers under each root, gathered into lists.
ghost use Rattle.std.specs.Prelude.{◌≡◌, ℕ, ◌<◌, [], ◌∷◌, ◌++◌, length, slice_index_or, IfOk, OnOk, filter, vec_len};
ghost use Rattle.mo_connect.specs.private.Links.{Falls, IsFlat};
ghost use Rattle.mo_connect.specs.private.Gathered.{HasMembers, is_filled, with_member};

use std::alloc::{AllocError, Global};
use sync_values::List;

/// For each number a list: of a root with others under it, itself and those, rising; of any other, nothing.
pub fn members(alloc: Global, count: u32, parents: &[u32]) -> Result<Vec<List<u32>>, AllocError>
    requires length { length parents.now ≡ count }
    requires falls { Falls parents.now }
    requires flat { IsFlat parents.now }
    ensures length { IfOk result (λ lists. vec_len lists ≡ count) }
    ensures members { IfOk result (λ lists. (root : ℕ) → HasMembers parents.now count root (slice_index_or lists.items root [])) }
{
    let mut lists = Vec::with_capacity(alloc, count as usize)?;
    for x in 0..count {
        let root = parents[x as usize];
        lists.push(List::new(alloc))?;
        if root < x {
            add(&mut lists[root as usize], root, x)?;
        }
    }
    Ok(lists)
}

/// Adds a number to the list of its root, after the root itself where it is the first.
fn add(list: &mut List<u32>, root: u32, x: u32) -> Result<(), AllocError>
    ensures { OnOk result (list.new ≡ with_member list.old root x) }
{
    if list.is_empty() {
        list.push(root)?;
    }
    list.push(x)?;
    Ok(())
}

/// Takes the empty lists out.
pub fn keep_filled(lists: &mut Vec<List<u32>>)
    ensures { lists.new.items ≡ filter is_filled lists.old.items }
{
    lists.retain(|list| has_members(list));
}

fn has_members(list: &List<u32>) -> bool
    ensures { result ≡ is_filled list.now }
{
    !list.is_empty()
}
