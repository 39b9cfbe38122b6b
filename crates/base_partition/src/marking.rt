//! Marks of classes, and the first class that has both.
ghost use Rattle.std.specs.Prelude.{◌≡◌, ℕ, ◌<◌, length, slice_index_or, MatchOption, IfOk, true, false};
ghost use Rattle.base_partition.specs.private.Marks.{HasClasses, HasMarks, IsBoth, with_mark};
ghost use Rattle.base_partition.specs.private.Numbered.{is_member};

use crate::member::{flag_in, number_in};
use std::alloc::{AllocError, Global};
use sync_values::List;

fn mark(marks: &mut [bool], class_of: &[u32], members: &[bool], x: u32)
    requires { is_member members.now x ≡ true → slice_index_or class_of.now x 0 < length marks.old }
    ensures { marks.new ≡ with_mark (is_member members.now x) (slice_index_or class_of.now x 0) marks.old }
{
    if flag_in(members, x) {
        marks[number_in(class_of, x) as usize] = true;
    }
}

fn mark_all(marks: &mut [bool], class_of: &[u32], members: &[bool], list: &[u32])
    requires classes { HasClasses members.now class_of.now (length marks.old) }
    requires none { (c : ℕ) → slice_index_or marks.old c false ≡ false }
    ensures { HasMarks members.now class_of.now list.now (length marks.old) marks.new }
{
    for x in list {
        mark(marks, class_of, members, *x);
    }
}

/// Which classes have a member in the list.
pub(crate) fn marks(
    alloc: Global,
    count: usize,
    class_of: &[u32],
    members: &[bool],
    list: &[u32],
) -> Result<List<bool>, AllocError>
    requires { HasClasses members.now class_of.now count }
    ensures { IfOk result (HasMarks members.now class_of.now list.now count) }
{
    let mut marks = vec![in alloc; false; count]?;
    mark_all(&mut marks, class_of, members, list);
    Ok(List::from_vec(marks))
}

/// The first class with both marks.
pub(crate) fn mixed(clocked: &[bool], unclocked: &[bool]) -> Option<usize>
    requires { length clocked.now ≡ length unclocked.now }
    ensures { MatchOption result
        ((c : ℕ) → IsBoth clocked.now unclocked.now c → c < length clocked.now → ⊥)
        (λ c. IsBoth clocked.now unclocked.now c × (c < length clocked.now) × ((d : ℕ) → d < c → IsBoth clocked.now unclocked.now d → ⊥)) }
{
    for c in 0..clocked.len() {
        if clocked[c] && unclocked[c] {
            return Some(c);
        }
    }
    None
}
