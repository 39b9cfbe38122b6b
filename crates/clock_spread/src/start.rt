//! Spreading from the clocks that are known at first.
ghost use Rattle.std.specs.Prelude.{◌≡◌, ◌≢◌, ℕ, ◌<◌, ◌↔◌, All, List, length, true, IsTrue, IfOk, OnOk, vec_len, Contains};
ghost use Rattle.clock_terms.specs.Clocking.{Held};
ghost use Rattle.clock_spread.specs.Found.{IsFineFound, Agree, NoneLost, class_in, found_of, HasEnds};
ghost use Rattle.clock_spread.specs.Queue.{marked};
ghost use Rattle.clock_spread.specs.Turn.{AreProper, said_by, Settles};

use crate::offers::{Found, touching};
use crate::turn::spread_from;
use clock_terms::Relation;
use std::alloc::{AllocError, Global};

fn is_there(found: Found) -> bool
    ensures { IsTrue result ↔ (found ≢ Found.Not) }
{
    !matches!(found, Found::Not)
}

/// Which classes have a clock.
fn marks_of(alloc: Global, found: &[Found]) -> Result<Vec<bool>, AllocError>
    ensures length { IfOk result (λ marks. vec_len marks ≡ length found.now) }
    ensures marks { IfOk result (λ marks. (c : ℕ) → (marked marks.items c ≡ true) ↔ (found_of found.now c ≢ Found.Not)) }
{
    let mut marks = Vec::with_capacity(alloc, found.len())?;
    for one in found {
        marks.push(is_there(*one))?;
    }
    Ok(marks)
}

/// The classes that have a clock.
fn classes_of(alloc: Global, marks: &[bool], count: u32) -> Result<Vec<u32>, AllocError>
    requires { count ≡ length marks.now }
    ensures { IfOk result (λ first. (c : ℕ) → Contains first.items c ↔ (marked marks.now c ≡ true)) }
{
    let mut first = Vec::new(alloc);
    for class in 0..count {
        if marks[class as usize] {
            first.push(class)?;
        }
    }
    Ok(first)
}

/// Spreads the clocks that are there over the given relations, round by round, until a round changes nothing. The
/// answer is the first class whose clock has a part that reaches the limit, of the first round with one.
pub fn spread(
    alloc: Global,
    found: &mut [Found],
    relations: &[Relation],
    class_of: &[u32],
    clocked: &[bool],
) -> Result<Option<u32>, AllocError>
    requires ends { All (HasEnds class_of.now) relations.now }
    requires classes { All (λ c. c < length found.old) class_of.now }
    requires clocked { length clocked.now ≡ length found.old }
    requires fine { All IsFineFound found.old }
    ensures length { OnOk result (length found.new ≡ length found.old) }
    ensures fine { OnOk result (All IsFineFound found.new) }
    ensures settles { IfOk result (λ lost. (held : Held) → Agree found.old held → AreProper held → NoneLost found.old
        → Settles (said_by class_of.now clocked.now relations.now) held found.new lost) }
{
    let Ok(count) = u32::try_from(found.len()) else {
        return Err(AllocError);
    };
    let lists = touching(alloc, count, relations, class_of)?;
    let mut marks = marks_of(alloc, found)?;
    let first = classes_of(alloc, &marks, count)?;
    spread_from(alloc, found, &mut marks, clocked, &lists, class_of, first)
}
