ghost use Rattle.std.specs.Prelude.{◌≡◌, ◌≤◌, IfOk, length};
ghost use Rattle.flat_model.specs.Models.{size_limit};
ghost use Rattle.fork_runner.specs.Preparing.{StandsAtFirst};
ghost use Rattle.fork_runner.specs.Runners.{flat_of};

use crate::runner::Runner;
use crate::sheet::new_sheet;
use eq_order::Use;
use flat_model::{Clocking, FlatModel, Table};
use moment_body::{ClockedModel, Moments};
use std::alloc::{AllocError, Global};
use steps_ready::prepare_steps;
use tick_plan::TickSource;

impl<P: TickSource + Drop> Runner<P> {
    /// A runner of a model before its first moment, with all the memory that its moments need. Base partitions are stepped
    /// by as many threads as `workers` says. Memory that is refused is the only error.
    ///
    /// Source: this project's own.
    pub fn prepare(
        alloc: Global,
        flat: FlatModel,
        clocking: Clocking,
        order: &[Use],
        table: Table,
        plan: P,
        workers: u32,
    ) -> Result<Runner<P>, AllocError>
        requires few { length flat.names ≤ size_limit }
        ensures stands { IfOk result (StandsAtFirst P.planned flat clocking order.now table (P.planned plan)) }
        ensures model { IfOk result (λ runner. flat_of runner ≡ flat) }
    {
        let steps = prepare_steps(alloc, &flat, &clocking, order, workers)?;
        let sheet = new_sheet(alloc, &flat, &clocking)?;
        Ok(Runner {
            plan,
            body: Moments {
                model: ClockedModel {
                    flat,
                    clocking,
                    table,
                },
                sheet,
                steps,
            },
            ran: None,
            fault: None,
            given: 0,
        })
    }
}
