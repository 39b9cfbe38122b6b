ghost use Rattle.std.specs.Prelude.{◌≡◌, ◌≢◌, ℕ, ◌+◌, ◌<◌, length, get_or};
ghost use Rattle.tick_tree.specs.Tree.{IsTree, leaf_of};

/// The place of a key that is the least.
pub(crate) fn due_leaf(nodes: &[u64]) -> usize
    requires tree { IsTree nodes.now }
    requires some { 1 < length nodes.now }
    ensures within { result + result < length nodes.now }
    ensures due { leaf_of nodes.now result ≡ get_or nodes.now 1 0 }
{
    let leaves = nodes.len() / 2;
    let mut at: usize = 1;
    while at < leaves {
        if nodes[2 * at] == nodes[1] {
            at = 2 * at;
        } else {
            at = 2 * at + 1;
        }
    }
    at - leaves
}

/// Gives a leaf another key.
pub(crate) fn put(nodes: &mut [u64], leaf: usize, key: u64)
    requires tree { IsTree nodes.old }
    requires within { leaf + leaf < length nodes.old }
    ensures tree { IsTree nodes.new }
    ensures long { length nodes.new ≡ length nodes.old }
    ensures own { leaf_of nodes.new leaf ≡ key }
    ensures others { (j : ℕ) → j ≢ leaf → leaf_of nodes.new j ≡ leaf_of nodes.old j }
{
    let leaves = nodes.len() / 2;
    nodes[leaves + leaf] = key;
    let mut at = (leaves + leaf) / 2;
    while at > 0 {
        nodes[at] = nodes[2 * at].min(nodes[2 * at + 1]);
        at /= 2;
    }
}
