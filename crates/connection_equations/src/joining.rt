//! The equations of the connections of instances.
ghost use Rattle.std.specs.Prelude.{◌≡◌, List, IfOk, map};
ghost use Rattle.class_scopes.specs.Tables.{number_of};
ghost use Rattle.flat_instances.specs.Kept as kept;
ghost use Rattle.flat_model.specs.declared.raw.RawEq.{RawEq as Equation};
ghost use Rattle.connection_equations.specs.Connections as connections;
ghost use Rattle.connection_equations.specs.Sets.{AreEquations};

use crate::pairs::Joiner;
use crate::set_equations::equations_of;
use flat_instances::Item;
use flat_model::RawEq;
use mo_connect::sets;
use sync_values::{List, NoMemory};

/// The equations of the connections of instances: of each set of names that their connects join, in the order of the first
/// members, the first member with each other member in flat order. Memory that is refused is the only error.
pub fn connection_equations(
    joiner: &Joiner<'_>,
    items: &[Item<'_>],
) -> Result<List<RawEq>, NoMemory>
    ensures equations { IfOk result (AreEquations joiner.now.count (connections.pairs joiner.now.scopes.now.named.file.text.now joiner.now.scopes.now.named.file.classes.now (number_of joiner.now.names.now) (map (kept.seen joiner.now.scopes.now.named.file.text.now joiner.now.scopes.now.named.file.classes.now) items.now))) }
    // No other list fits.
    ensures only { IfOk result (λ equations. (others : List Equation) → AreEquations joiner.now.count (connections.pairs joiner.now.scopes.now.named.file.text.now joiner.now.scopes.now.named.file.classes.now (number_of joiner.now.names.now) (map (kept.seen joiner.now.scopes.now.named.file.text.now joiner.now.scopes.now.named.file.classes.now) items.now)) others → others ≡ equations) }
{
    let pairs = joiner.pairs(items)?;
    let classes = sets(joiner.alloc, joiner.count, &pairs)?;
    Ok(equations_of(joiner.alloc, classes.as_slice())?)
}
