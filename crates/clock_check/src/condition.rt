//! Event conditions in whose class a `hold` stands.
ghost use Rattle.std.specs.Prelude.{◌≡◌, ◌<◌, ◌≤◌, ◌+◌, ◌==◌, if◌then◌else◌, ◌↔◌, ◌⊎◌, ℕ, All, length, IfOk, IsTrue, vec_len, slice_index_or, true, false, Some};
ghost use Rattle.clock_spread.specs.Least.{IsLeastOf};
ghost use Rattle.clock_check.specs.private.Holding.{HasHold, IsInClass, IsHoldingAt};

use clock_spread::lesser;
use clock_terms::{Cause, NodeOf};
use std::alloc::{AllocError, Global};

/// The classes in which a `hold` stands.
fn holding(
    alloc: Global,
    count: usize,
    class_of: &[u32],
    holds: &[u32],
) -> Result<Vec<bool>, AllocError>
    requires { All (IsInClass class_of.now count) holds.now }
    ensures length { IfOk result (λ marks. vec_len marks ≡ count) }
    ensures marks { IfOk result (λ marks. (c : ℕ) → (slice_index_or marks.items c false ≡ true) ↔ HasHold class_of.now holds.now c) }
{
    let mut marks = no_marks(alloc, count)?;
    mark(&mut marks, class_of, holds);
    Ok(marks)
}

fn no_marks(alloc: Global, count: usize) -> Result<Vec<bool>, AllocError>
    ensures length { IfOk result (λ marks. vec_len marks ≡ count) }
    ensures none { IfOk result (λ marks. (c : ℕ) → slice_index_or marks.items c false ≡ false) }
{
    let mut marks = Vec::with_capacity(alloc, count)?;
    for _ in 0..count {
        marks.push(false)?;
    }
    Ok(marks)
}

fn mark(marks: &mut [bool], class_of: &[u32], holds: &[u32])
    requires { All (IsInClass class_of.now (length marks.old)) holds.now }
    ensures length { length marks.new ≡ length marks.old }
    ensures marks { (c : ℕ) → (slice_index_or marks.new c false ≡ true) ↔ ((slice_index_or marks.old c false ≡ true) ⊎ HasHold class_of.now holds.now c) }
{
    for node in holds {
        set_mark(marks, class_of[*node as usize]);
    }
}

fn set_mark(marks: &mut [bool], class: u32)
    requires { class < length marks.old }
    ensures length { length marks.new ≡ length marks.old }
    ensures marks { (c : ℕ) → slice_index_or marks.new c false ≡ (if class == c then true else slice_index_or marks.old c false) }
{
    marks[class as usize] = true;
}

fn is_marked(marks: &[bool], class: u32) -> bool
    ensures { result ≡ slice_index_or marks.now class false }
{
    match marks.get(class as usize) {
        Some(mark) => *mark,
        None => false,
    }
}

/// Whether the node is an event condition in such a class.
fn is_holding(node: NodeOf, marks: &[bool], class: u32) -> bool
    ensures { IsTrue result ↔ ((node.cause ≡ Some Cause.Condition) × (slice_index_or marks.now class false ≡ true)) }
{
    match node.cause {
        Some(Cause::Condition) => is_marked(marks, class),
        Some(Cause::Sampled) => false,
        None => false,
    }
}

/// The least equation of an event condition in whose class a `hold` stands. Nodes are numbered from `first` on.
pub(crate) fn held_condition(
    alloc: Global,
    count: usize,
    class_of: &[u32],
    holds: &[u32],
    nodes: &[NodeOf],
    first: usize,
) -> Result<Option<u32>, AllocError>
    requires holds { All (IsInClass class_of.now count) holds.now }
    requires nodes { first + length nodes.now ≤ length class_of.now }
    ensures { IfOk result (IsLeastOf (IsHoldingAt class_of.now holds.now nodes.now first)) }
{
    let marks = holding(alloc, count, class_of, holds)?;
    let mut least = None;
    for (j, node) in nodes.iter().enumerate() {
        least = lesser(
            least,
            node.equation,
            is_holding(*node, &marks, class_of[first + j]),
        );
    }
    Ok(least)
}
