//! Numbers under roots: each number has a parent that is not above it, and a root is its own parent.
ghost use Rattle.std.specs.Prelude.{◌≡◌, ℕ, ◌<◌, ◌≤◌, [], ◌∷◌, ◌++◌, List, length, IfOk, vec_len};
ghost use Rattle.mo_connect.specs.declared.Pair.{Pair};
ghost use Rattle.mo_connect.specs.Chain.{AreBelow};
ghost use Rattle.mo_connect.specs.private.Links.{IsRoot, Falls, IsFlat, AreLinked, KeepsLinks, LinksJoined};

use crate::Pair;
use std::alloc::{AllocError, Global};

/// The parents under which the numbers below `count` are linked as the pairs join them.
pub fn joined(alloc: Global, count: u32, pairs: &[Pair]) -> Result<Vec<u32>, AllocError>
    requires { AreBelow count pairs.now }
    ensures length { IfOk result (λ parents. vec_len parents ≡ count) }
    ensures falls { IfOk result (λ parents. Falls parents.items) }
    ensures links { IfOk result (λ parents. LinksJoined pairs.now parents.items) }
{
    let mut parents = roots(alloc, count)?;
    for pair in pairs {
        join(&mut parents, *pair);
    }
    Ok(parents)
}

/// The numbers below `count`, each its own parent.
fn roots(alloc: Global, count: u32) -> Result<Vec<u32>, AllocError>
    ensures length { IfOk result (λ parents. vec_len parents ≡ count) }
    ensures roots { IfOk result (λ parents. (x : ℕ) → IsRoot parents.items x) }
{
    let mut parents = Vec::with_capacity(alloc, count as usize)?;
    for x in 0..count {
        parents.push(x)?;
    }
    Ok(parents)
}

/// Puts the two numbers of a pair, and all that is linked to them, under one root.
fn join(parents: &mut [u32], pair: Pair)
    requires a { pair.a < length parents.old }
    requires b { pair.b < length parents.old }
    requires falls { Falls parents.old }
    ensures falls { Falls parents.new }
    ensures links { (pairs : List Pair) → LinksJoined pairs parents.old → LinksJoined (pairs ++ pair ∷ []) parents.new }
{
    let first = find_root(parents, pair.a);
    let second = find_root(parents, pair.b);
    parents[first.max(second) as usize] = first.min(second);
}

/// The root over a number. Each second number on the way to it gets its parent's parent as its own.
fn find_root(parents: &mut [u32], start: u32) -> u32
    requires within { start < length parents.old }
    requires falls { Falls parents.old }
    ensures root { IsRoot parents.new result }
    ensures linked { AreLinked parents.new start result }
    ensures below { result ≤ start }
    ensures kept { KeepsLinks parents.old parents.new }
{
    let mut at = start;
    loop {
        let parent = parents[at as usize];
        if parent == at {
            return at;
        }
        let above = parents[parent as usize];
        parents[at as usize] = above;
        at = above;
    }
}

/// Puts each number right under its root.
pub fn flatten(parents: &mut [u32])
    requires { Falls parents.old }
    ensures flat { IsFlat parents.new }
    ensures kept { KeepsLinks parents.old parents.new }
{
    for x in 0..parents.len() {
        parents[x] = parents[parents[x] as usize];
    }
}
