ghost use Rattle.std.specs.Prelude.{◌≡◌, ℕ, ◌+◌, ◌/◌, ◌<◌, length, get_or, min, IfOk};
ghost use Rattle.tick_tree.specs.Tree.{IsTree, leaf_of};

use std::alloc::{AllocError, Global};

/// The tree over these keys.
pub fn build(alloc: Global, keys: &[u64]) -> Result<Vec<u64>, AllocError>
    ensures tree { IfOk result (λ nodes. IsTree nodes.items) }
    ensures long { IfOk result (λ nodes. length nodes.items ≡ length keys.now + length keys.now) }
    ensures leaves { IfOk result (λ nodes. (j : ℕ) → j < length keys.now → leaf_of nodes.items j ≡ get_or keys.now j 0) }
{
    let mut nodes = Vec::with_capacity(alloc, keys.len())?;
    nodes.extend_from_slice(keys)?;
    nodes.extend_from_slice(keys)?;
    fill(nodes.as_mut_slice());
    Ok(nodes)
}

/// Makes each inner node the lesser of those below it.
fn fill(nodes: &mut [u64])
    requires even { length nodes.old / 2 + length nodes.old / 2 ≡ length nodes.old }
    ensures tree { IsTree nodes.new }
    ensures long { length nodes.new ≡ length nodes.old }
    ensures leaves { (j : ℕ) → leaf_of nodes.new j ≡ leaf_of nodes.old j }
{
    let mut at = nodes.len() / 2;
    while at > 1 {
        at -= 1;
        nodes[at] = nodes[2 * at].min(nodes[2 * at + 1]);
    }
}
