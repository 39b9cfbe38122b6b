ghost use Rattle.std.specs.Prelude.{◌≡◌, ◌≤◌, length};
ghost use Rattle.flat_model.specs.Models.{size_limit};
ghost use Rattle.flat_model.specs.Runnable.{AreClocks};
ghost use Rattle.flat_model.specs.Setting.{Setting};
ghost use Rattle.eq_order.specs.Order.{Answers};

use crate::ends::OrderEnd;
use crate::fault::check_ended;
use crate::kinds::Order;
use crate::mirror::mirrored;
use crate::reaching::taken;
use crate::reads::{known_names, reads};
use flat_model::{Clocking, FlatModel};
use std::alloc::Global;

/// The order in which the equations of a model give values to its names: as long as an unused equation reads exactly
/// one unreached name now and is solvable for it, the first such equation in flat order is used and reaches its name.
///
/// # Errors
///
/// The broken rule with its place, where this does not reach each name and use each equation between values: Q1 where
/// all names are reached, Q3 at the first equation with exactly one unreached name, for which it is not solvable, else
/// Q2 at the first unreached name where these outnumber the equations that read one, else Q4 at the first such equation.
///
/// Source: this project's own.
pub fn order(alloc: Global, flat: &FlatModel, clocking: &Clocking) -> Result<Order, OrderEnd>
    requires few { length flat.now.equations ≤ size_limit }
    requires clocks { AreClocks clocking.now }
    // The answer rests on the model and its clocking alone, and not on the table or the stop of a setting.
    ensures { (s : Setting) → s.model ≡ flat.now → s.clocking ≡ clocking.now → Answers s result }
{
    let mut reached = known_names(alloc, flat.names.as_slice())?;
    let reads = reads(alloc, flat, clocking, &reached)?;
    let readers = mirrored(alloc, &reads, flat.names.len())?;
    let uses = taken(
        alloc,
        flat.equations.as_slice(),
        &reads,
        &readers,
        &mut reached,
    )?;
    check_ended(alloc, flat, &reads, &reached, uses.as_slice())?;
    Ok(uses)
}
