//! The classes into which pairs join numbers, as connects join members of connectors into connection sets
//! (MLS 3.6, chapter 9, "Generation of Connection Equations").
#![tactic(auto)]

ghost use Rattle.std.specs.Prelude.{◌≡◌, ℕ, List, IfOk};
ghost use Rattle.mo_connect.specs.Chain.{AreBelow};
ghost use Rattle.mo_connect.specs.Classes.{AreClasses};

mod forest;
mod gather;

use std::alloc::Global;
use sync_values::{List, NoMemory};

/// Two numbers that belong together.
#[derive(Clone, Copy)]
pub struct Pair {
    pub a: u32,
    pub b: u32,
}

/// The classes of at least two members of the smallest equivalence on the numbers below `count` that holds the
/// pairs. The members of a class rise, and the classes stand in the order of their first members.
pub fn sets(alloc: Global, count: u32, pairs: &List<Pair>) -> Result<List<List<u32>>, NoMemory>
    requires { AreBelow count pairs.now }
    ensures classes { IfOk result (AreClasses count pairs.now) }
    // No other list fits.
    ensures only { IfOk result (λ classes. (others : List (List ℕ)) → AreClasses count pairs.now others → others ≡ classes) }
{
    let mut parents = forest::joined(alloc, count, pairs.as_slice())?;
    forest::flatten(&mut parents);
    let mut classes = gather::members(alloc, count, &parents)?;
    gather::keep_filled(&mut classes);
    Ok(List::from_vec(classes))
}
