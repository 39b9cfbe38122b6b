ghost use Rattle.std.specs.Prelude.{◌≡◌, ℕ, ◌+◌, ◌<◌, length, get_or, min, if◌then◌else◌, ◌==◌};
ghost use Rattle.tick_tree.specs.Tree.{IsTree, leaf_of};

use crate::tree::{due_leaf, put};

/// A key moved on by a step, and no further than the limit.
fn moved_on(key: u64, step: u64, limit: u64) -> u64
    requires { key < limit }
    ensures { result ≡ min (key + step) limit }
{
    if step < limit - key {
        key + step
    } else {
        limit
    }
}

/// Moves each key that is the least on by its step, and no further than the limit.
pub fn advance(nodes: &mut [u64], steps: &[u64], limit: u64)
    requires tree { IsTree nodes.old }
    requires some { 0 < length steps.now }
    requires long { length nodes.old ≡ length steps.now + length steps.now }
    requires below { get_or nodes.old 1 0 < limit }
    requires rising { (j : ℕ) → j < length steps.now → 0 < get_or steps.now j 0 }
    ensures tree { IsTree nodes.new }
    ensures long { length nodes.new ≡ length nodes.old }
    ensures leaves { (j : ℕ) → j < length steps.now → leaf_of nodes.new j ≡
        (if leaf_of nodes.old j == get_or nodes.old 1 0 then min (leaf_of nodes.old j + get_or steps.now j 0) limit else leaf_of nodes.old j) }
{
    let now = nodes[1];
    while nodes[1] == now {
        let leaf = due_leaf(nodes);
        put(nodes, leaf, moved_on(now, steps[leaf], limit));
    }
}
