//! The equations of connection sets.
ghost use Rattle.std.specs.Prelude.{◌≡◌, ◌++◌, IfOk, OnOk, flat_map};
ghost use Rattle.connection_equations.specs.Sets as connected;

use flat_model::{RawEq, RawExpr};
use std::alloc::{AllocError, Global};
use sync_values::List;

/// The equation of two names.
fn equal(first: u32, other: u32) -> RawEq
    ensures { result ≡ connected.equal first other }
{
    RawEq {
        left: RawExpr::Name(first),
        right: RawExpr::Name(other),
        clause: None,
    }
}

/// Adds the equations of the first member of a set with each other one.
fn add_set(set: &[u32], equations: &mut List<RawEq>) -> Result<(), AllocError>
    ensures { OnOk result (equations.new ≡ equations.old ++ connected.equations_of_set set.now) }
{
    if let [first, others @ ..] = set {
        for other in others {
            equations.push(equal(*first, *other))?;
        }
    }
    Ok(())
}

/// The equations of several sets. Memory that is refused is the only error.
pub fn equations_of(alloc: Global, sets: &[List<u32>]) -> Result<List<RawEq>, AllocError>
    ensures { IfOk result (λ equations. equations ≡ flat_map connected.equations_of_set sets.now) }
{
    let mut equations = List::new(alloc);
    for set in sets {
        add_set(set.as_slice(), &mut equations)?;
    }
    Ok(equations)
}
