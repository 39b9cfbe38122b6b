ghost use Rattle.std.specs.Prelude.{◌≡◌, ◌<◌, ℕ, length, slice_get, Some, None};
ghost use Rattle.flat_model.specs.Assignment.{Assignment};
ghost use Rattle.flat_model.specs.Setting.{Setting};
ghost use Rattle.run_ahead.specs.Ahead.{Window, IsKept, RunsOn};
ghost use Rattle.run_ahead.specs.Advances.{EndsWhere};

use flat_model::{Fault, Moment};
use outside_io::Gate;
use std::thread::Threads;
use sync_values::Value;

/// What runs windows of moments, one behind the other, and holds the rows of the last one.
pub trait Windows {
    /// What is kept behind the window is that of an assignment before a moment of a setting.
    ghost keeps: { Self → Setting → Assignment → ℕ → Type 0 };

    /// The moments of the window with their rows, and the fault behind them.
    ghost shown: { Self → Window };

    /// No moment is left to be run.
    ghost over: { Self → Type 0 };

    /// Runs the next window. It takes no memory.
    fn run<R: Threads + Sync, G: Gate + Sync>(&mut self, rt: &R, gate: &G)
        requires kept { IsKept (keeps self.old) }
        requires fault { (shown self.old).fault ≡ None }
        ensures runs { RunsOn (keeps self.old) (keeps self.new) (shown self.new) }
        ensures ends { EndsWhere (over self.old) (over self.new) (shown self.new) };

    /// How many moments the window has.
    fn count(&self) -> usize
        ensures { result ≡ length (shown self.now).moments };

    /// A moment of the window.
    fn moment(&self, at: usize) -> Moment
        requires { at < length (shown self.now).moments }
        ensures { slice_get (shown self.now).moments at ≡ Some result };

    /// The row of a moment of the window.
    fn row(&self, at: usize) -> &[Option<Value>]
        requires { at < length (shown self.now).rows }
        ensures { slice_get (shown self.now).rows at ≡ Some result.now };

    /// The fault behind the window.
    fn fault(&self) -> Option<Fault>
        ensures { result ≡ (shown self.now).fault };
}
