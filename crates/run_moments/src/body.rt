ghost use Rattle.std.specs.Prelude.{◌≡◌, ℕ, List, Option};
ghost use Rattle.sync_values.specs.declared.value.Value.{Value as CellValue};
ghost use Rattle.flat_model.specs.Assignment.{Assignment};
ghost use Rattle.flat_model.specs.Setting.{Setting};
ghost use Rattle.run_moments.specs.Moving.{IsThere, Moves};

use flat_model::{Fault, Moment};
use outside_io::Gate;
use std::thread::Threads;
use sync_values::Value;
use tick_plan::TickSource;

/// What runs a moment that a plan gave.
pub trait Body<P: TickSource> {
    /// What is kept is that of an assignment before a moment of a setting.
    ghost keeps: { Self → Setting → Assignment → ℕ → Type 0 };

    /// The values of the columns at the moment that was run last.
    ghost columns: { Self → List (Option CellValue) };

    /// Runs a moment: the sites that rise at it are noted, all that counts at it is stepped, and the first fault is found. It
    /// takes no memory.
    fn moment<R: Threads + Sync, G: Gate + Sync>(
        &mut self,
        rt: &R,
        gate: &G,
        plan: &mut P,
        at: Moment,
    ) -> Option<Fault>
        requires there { IsThere (keeps self.old) (P.planned plan.old) at }
        ensures moves { Moves (keeps self.old) (P.planned plan.old) at (keeps self.new) (P.planned plan.new) (columns self.new) result };

    /// The values of the columns at the moment that was run last.
    fn row(&self) -> &[Option<Value>]
        ensures { result.now ≡ columns self.now };
}
