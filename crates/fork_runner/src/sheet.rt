ghost use Rattle.std.specs.Prelude.{◌≤◌, IfOk, length};
ghost use Rattle.flat_model.specs.Models.{size_limit};
ghost use Rattle.fork_runner.specs.Preparing.{IsNewSheet};

use flat_model::{Clocking, FlatModel};
use moment_body::Sheet;
use moment_inputs::list_columns;
use std::alloc::{AllocError, Global};

/// A sheet on which nothing is written, with room for the names, the sites and the columns of a model.
pub(crate) fn new_sheet(
    alloc: Global,
    flat: &FlatModel,
    clocking: &Clocking,
) -> Result<Sheet, AllocError>
    requires few { length flat.now.names ≤ size_limit }
    ensures { IfOk result (IsNewSheet flat.now clocking.now) }
{
    let columns = list_columns(alloc, flat.names.as_slice())?;
    let row = vec![in alloc; None; columns.len()]?;
    Ok(Sheet {
        columns,
        now: vec![in alloc; None; flat.names.len()]?,
        answers: vec![in alloc; None; clocking.sites.len()]?,
        low: vec![in alloc; false; clocking.sites.len()]?,
        row,
    })
}
