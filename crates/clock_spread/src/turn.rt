//! One round of spreading.
ghost use Rattle.std.specs.Prelude.{◌≡◌, ℕ, ◌<◌, ◌≤◌, All, List, length, true, IfOk, OnOk, IsTrue, ◌↔◌, vec_len, slice_index_or, []};
ghost use Rattle.clock_terms.specs.Clocking.{Held};
ghost use Rattle.clock_spread.specs.Rounds.{offered};
ghost use Rattle.clock_spread.specs.Found.{IsFineFound, Agrees, Agree, IsExact, NoneLost, class_in, found_of, HasEnds, touches};
ghost use Rattle.clock_spread.specs.Queue.{unmarked};
ghost use Rattle.clock_spread.specs.Turn.{Commits, AreTouching, AreProper, AreLost, IsNextLost, Stands, following, said_by, Settles};
ghost use Rattle.clock_spread.specs.Least.{IsLeastOf, IsNumberIn};

use crate::least::lesser;
use crate::offers::{Found, take};
use crate::queue::candidates;
use clock_terms::Relation;
use std::alloc::{AllocError, Global};
use sync_values::List;

/// What each of these classes takes.
fn taken(
    alloc: Global,
    found: &[Found],
    lists: &[List<Relation>],
    class_of: &[u32],
    next: &[u32],
) -> Result<Vec<Found>, AllocError>
    requires ends { All (All (HasEnds class_of.now)) lists.now }
    requires classes { All (λ c. c < length found.now) class_of.now }
    requires fine { All IsFineFound found.now }
    requires touches { (c : ℕ) → c < length lists.now → All (λ r. touches (class_in class_of.now) c r ≡ true) (slice_index_or lists.now c []) }
    requires next { All (λ c. c < length lists.now) next.now }
    ensures length { IfOk result (λ news. vec_len news ≡ length next.now) }
    ensures fine { IfOk result (λ news. All IsFineFound news.items) }
    ensures exact { IfOk result (λ news. NoneLost found.now → (held : Held) → Agree found.now held → (k : ℕ) → k < length next.now
        → IsExact (found_of news.items k) (offered (class_in class_of.now) held (slice_index_or lists.now (slice_index_or next.now k 0) []) (slice_index_or next.now k 0))) }
    ensures agrees { IfOk result (λ news. (held : Held) → Agree found.now held → (k : ℕ) → k < length next.now
        → Agrees (found_of news.items k) (offered (class_in class_of.now) held (slice_index_or lists.now (slice_index_or next.now k 0) []) (slice_index_or next.now k 0))) }
{
    let mut news = Vec::new(alloc);
    for class in next {
        news.push(take(found, lists[*class as usize].as_slice(), class_of, *class))?;
    }
    Ok(news)
}

/// Keeps the new clocks.
fn commit(found: &mut [Found], next: &[u32], news: &[Found])
    requires length { length news.now ≡ length next.now }
    requires next { All (λ c. c < length found.old) next.now }
    requires fine { All IsFineFound found.old }
    requires news { All IsFineFound news.now }
    ensures length { length found.new ≡ length found.old }
    ensures fine { All IsFineFound found.new }
    ensures commits { Commits (length next.now) next.now news.now found.old found.new }
{
    for (i, class) in next.iter().enumerate() {
        found[*class as usize] = news[i];
    }
}

/// One round: each class without a clock takes one over its first relation to a class that has one. The answer is the
/// classes that took theirs.
fn turn_of(
    alloc: Global,
    found: &mut [Found],
    marks: &mut [bool],
    clocked: &[bool],
    lists: &[List<Relation>],
    class_of: &[u32],
    last: &[u32],
) -> Result<Vec<u32>, AllocError>
    requires ends { All (All (HasEnds class_of.now)) lists.now }
    requires classes { All (λ c. c < length found.old) class_of.now }
    requires marks { length marks.old ≡ length found.old }
    requires clocked { length clocked.now ≡ length found.old }
    requires lists { length lists.now ≡ length found.old }
    requires fine { All IsFineFound found.old }
    requires touches { (c : ℕ) → c < length lists.now → All (λ r. touches (class_in class_of.now) c r ≡ true) (slice_index_or lists.now c []) }
    requires last { All (λ c. c < length lists.now) last.now }
    ensures length { IfOk result (λ next. length found.new ≡ length found.old) }
    ensures marks { IfOk result (λ next. length marks.new ≡ length marks.old) }
    ensures fine { IfOk result (λ next. All IsFineFound found.new) }
    ensures kept { IfOk result (λ next. unmarked marks.new ≤ unmarked marks.old) }
    ensures fewer { IfOk result (λ next. 0 < length next.items → unmarked marks.new < unmarked marks.old) }
    ensures below { IfOk result (λ next. All (λ c. c < length lists.now) next.items) }
    ensures stands { IfOk result (λ next. (relations : List Relation) (held : Held) → AreTouching class_of.now relations lists.now
        → Stands class_of.now clocked.now relations lists.now held found.old marks.old last.now
        → Stands class_of.now clocked.now relations lists.now (following (said_by class_of.now clocked.now relations) held) found.new marks.new next.items) }
    ensures lost { IfOk result (λ next. (relations : List Relation) (held : Held) → AreTouching class_of.now relations lists.now
        → Stands class_of.now clocked.now relations lists.now held found.old marks.old last.now → AreProper held → NoneLost found.old
        → AreLost (said_by class_of.now clocked.now relations) held found.new next.items) }
{
    let next = candidates(alloc, marks, clocked, lists, class_of, last)?;
    let news = taken(alloc, found, lists, class_of, &next)?;
    commit(found, &next, &news);
    Ok(next)
}

fn is_lost(found: Found) -> bool
    ensures { IsTrue result ↔ (found ≡ Found.Lost) }
{
    matches!(found, Found::Lost)
}

/// The least of these classes that is lost.
fn least_lost(found: &[Found], next: &[u32]) -> Option<u32>
    requires { All (λ c. c < length found.now) next.now }
    ensures { IsLeastOf (IsNumberIn (λ c. c) (λ c. found_of found.now c ≡ Found.Lost) next.now) result }
{
    let mut least = None;
    for class in next {
        least = lesser(least, *class, is_lost(found[*class as usize]));
    }
    least
}

/// The class that was lost first: one of these only where there was none before.
fn first_lost(before: Option<u32>, found: &[Found], next: &[u32]) -> Option<u32>
    requires { All (λ c. c < length found.now) next.now }
    ensures { IsNextLost before found.now next.now result }
{
    match before {
        Some(class) => Some(class),
        None => least_lost(found, next),
    }
}

/// Rounds, until one changes nothing. The answer is the class that was lost first.
pub(crate) fn spread_from(
    alloc: Global,
    found: &mut [Found],
    marks: &mut [bool],
    clocked: &[bool],
    lists: &[List<Relation>],
    class_of: &[u32],
    first: Vec<u32>,
) -> Result<Option<u32>, AllocError>
    requires ends { All (All (HasEnds class_of.now)) lists.now }
    requires classes { All (λ c. c < length found.old) class_of.now }
    requires marks { length marks.old ≡ length found.old }
    requires clocked { length clocked.now ≡ length found.old }
    requires lists { length lists.now ≡ length found.old }
    requires fine { All IsFineFound found.old }
    requires touches { (c : ℕ) → c < length lists.now → All (λ r. touches (class_in class_of.now) c r ≡ true) (slice_index_or lists.now c []) }
    requires first { All (λ c. c < length lists.now) first.items }
    ensures length { OnOk result (length found.new ≡ length found.old) }
    ensures fine { OnOk result (All IsFineFound found.new) }
    ensures settles { IfOk result (λ lost. (relations : List Relation) (held : Held) → AreTouching class_of.now relations lists.now
        → Stands class_of.now clocked.now relations lists.now held found.old marks.old first.items → AreProper held → NoneLost found.old
        → Settles (said_by class_of.now clocked.now relations) held found.new lost) }
{
    let mut last = first;
    let mut lost = None;
    'rounds: while !last.is_empty() {
        last = turn_of(alloc, found, marks, clocked, lists, class_of, &last)?;
        lost = first_lost(lost, found, &last);
    }
    Ok(lost)
}
