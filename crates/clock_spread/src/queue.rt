//! The classes that may take a clock in a round.
ghost use Rattle.std.specs.Prelude.{◌≡◌, ◌<◌, All, length, OnOk, IfOk, []};
ghost use Rattle.clock_spread.specs.Found.{class_in, HasEnds};
ghost use Rattle.clock_spread.specs.Queue.{Queues, IsOtherEnd, IsNextTo, other_end};

use clock_terms::Relation;
use std::alloc::{AllocError, Global};
use sync_values::List;

/// Queues a class, where it is clocked and was not queued.
fn add(
    next: &mut Vec<u32>,
    marks: &mut [bool],
    clocked: &[bool],
    class: u32,
) -> Result<(), AllocError>
    requires class { class < length marks.old }
    requires clocked { length clocked.now ≡ length marks.old }
    ensures { OnOk result (Queues (λ c. c ≡ class) clocked.now next.old.items marks.old next.new.items marks.new) }
{
    if clocked[class as usize] && !marks[class as usize] {
        marks[class as usize] = true;
        next.push(class)?;
    }
    Ok(())
}

/// The class at the other end.
fn end_of(relation: Relation, class_of: &[u32], class: u32) -> u32
    requires { HasEnds class_of.now relation }
    ensures { result ≡ other_end (class_in class_of.now) class relation }
{
    let first = class_of[relation.result as usize];
    if first == class {
        class_of[relation.argument as usize]
    } else {
        first
    }
}

/// Queues the classes at the other ends of the relations that touch a class.
fn add_ends(
    next: &mut Vec<u32>,
    marks: &mut [bool],
    clocked: &[bool],
    touching: &[Relation],
    class_of: &[u32],
    class: u32,
) -> Result<(), AllocError>
    requires ends { All (HasEnds class_of.now) touching.now }
    requires classes { All (λ c. c < length marks.old) class_of.now }
    requires clocked { length clocked.now ≡ length marks.old }
    ensures { OnOk result (Queues (IsOtherEnd (class_in class_of.now) class touching.now) clocked.now next.old.items marks.old next.new.items marks.new) }
{
    for relation in touching {
        add(next, marks, clocked, end_of(*relation, class_of, class))?;
    }
    Ok(())
}

/// The classes that may take a clock from those that took theirs last, each once.
pub(crate) fn candidates(
    alloc: Global,
    marks: &mut [bool],
    clocked: &[bool],
    lists: &[List<Relation>],
    class_of: &[u32],
    last: &[u32],
) -> Result<Vec<u32>, AllocError>
    requires ends { All (All (HasEnds class_of.now)) lists.now }
    requires classes { All (λ c. c < length marks.old) class_of.now }
    requires last { All (λ c. c < length lists.now) last.now }
    requires clocked { length clocked.now ≡ length marks.old }
    ensures { IfOk result (λ next. Queues (IsNextTo (class_in class_of.now) lists.now last.now) clocked.now [] marks.old next.items marks.new) }
{
    let mut next = Vec::new(alloc);
    for class in last {
        add_ends(
            &mut next,
            marks,
            clocked,
            lists[*class as usize].as_slice(),
            class_of,
            *class,
        )?;
    }
    Ok(next)
}
