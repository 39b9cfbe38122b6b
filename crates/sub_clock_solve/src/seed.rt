//! The clocks of round 0.
ghost use Rattle.std.specs.Prelude.{◌≡◌, ◌^◌, ◌<◌, ℕ, All, List, length, IfOk, OnOk, vec_len, slice_index_or, ◌==◌, if◌then◌else◌};
ghost use Rattle.clock_terms.specs.Position.{IsFine};
ghost use Rattle.clock_terms.specs.Source.{Source};
ghost use Rattle.clock_spread.specs.Found.{IsFineFound, Agree, NoneLost, found_of};
ghost use Rattle.clock_spread.specs.Queue.{marked};
ghost use Rattle.sub_clock_solve.specs.private.Given.{AreSources};
ghost use Rattle.sub_clock_solve.specs.private.Seeding.{seeded_at, start_of};

use crate::given::Given;
use clock_spread::Found;
use clock_terms::Grid;
use std::alloc::{AllocError, Global};

fn none_yet(alloc: Global, count: usize) -> Result<Vec<Found>, AllocError>
    ensures length { IfOk result (λ found. vec_len found ≡ count) }
    ensures none { IfOk result (λ found. (c : ℕ) → found_of found.items c ≡ Found.Not) }
{
    let mut found = Vec::with_capacity(alloc, count)?;
    for _ in 0..count {
        found.push(Found::Not)?;
    }
    Ok(found)
}

/// A clocked class takes the clock of a constructor, where it has none.
fn seed(found: &mut [Found], clocked: &[bool], class: u32, grid: Grid)
    requires class { class < length found.old }
    requires clocked { length clocked.now ≡ length found.old }
    ensures length { length found.new ≡ length found.old }
    ensures seeds { (c : ℕ) → found_of found.new c ≡ (if class == c then seeded_at (marked clocked.now c) (found_of found.old c) grid else found_of found.old c) }
{
    if clocked[class as usize] && matches!(found[class as usize], Found::Not) {
        found[class as usize] = Found::Kept(grid);
    }
}

/// Each clocked class has the clock of its first constructor.
fn seed_all(found: &mut [Found], clocked: &[bool], class_of: &[u32], givens: &[Given])
    requires none { (c : ℕ) → found_of found.old c ≡ Found.Not }
    requires clocked { length clocked.now ≡ length found.old }
    requires nodes { All (λ given. given.node < length class_of.now) givens.now }
    requires classes { All (λ c. c < length found.old) class_of.now }
    requires fine { All (λ given. IsFine (2 ^ 40) given.grid) givens.now }
    ensures length { length found.new ≡ length found.old }
    ensures fine { All IsFineFound found.new }
    ensures kept { NoneLost found.new }
    ensures agree { (sources : List Source) → AreSources givens.now sources
        → Agree found.new (start_of class_of.now clocked.now sources) }
{
    for given in givens {
        seed(found, clocked, class_of[given.node as usize], given.grid);
    }
}

/// The clocks of round 0, where each clocked class has that of its first constructor.
pub(crate) fn seeds(
    alloc: Global,
    clocked: &[bool],
    class_of: &[u32],
    givens: &[Given],
) -> Result<Vec<Found>, AllocError>
    requires nodes { All (λ given. given.node < length class_of.now) givens.now }
    requires classes { All (λ c. c < length clocked.now) class_of.now }
    requires fine { All (λ given. IsFine (2 ^ 40) given.grid) givens.now }
    ensures length { IfOk result (λ found. vec_len found ≡ length clocked.now) }
    ensures fine { IfOk result (λ found. All IsFineFound found.items) }
    ensures kept { IfOk result (λ found. NoneLost found.items) }
    ensures agree { IfOk result (λ found. (sources : List Source) → AreSources givens.now sources
        → Agree found.items (start_of class_of.now clocked.now sources)) }
{
    let mut found = none_yet(alloc, clocked.len())?;
    seed_all(&mut found, clocked, class_of, givens);
    Ok(found)
}
