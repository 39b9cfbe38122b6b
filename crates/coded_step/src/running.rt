//! The stretches of a base partition, by the clocks that are shown.
ghost use Rattle.std.specs.Prelude.{◌≡◌, true, None, length, All};
ghost use Rattle.part_stretches.specs.Running.{tick_in, IsRunWithin, RunsFrom};
ghost use Rattle.coded_step.specs.private.Landing.{ticking_of};

use part_stretches::ClassStretch;
use step_lines::run_lines;
use tree_step::ClockNow;

/// Whether the clock in a place ticks; without a clock nothing does.
#[tactic(auto, using(crate::proofs::Ticks::tick_found, crate::proofs::Ticks::tick_none))]
pub(crate) fn ticks_at(clocks: &[ClockNow], place: u32) -> bool
    ensures { result ≡ tick_in (ticking_of clocks.now) place }
{
    match clocks.get(place as usize) {
        Some(clock) => clock.ticks,
        None => false,
    }
}

/// Runs the stretches whose clocks tick, one after the other, up to the first equation that fails. The answer is whether none
/// does. It takes no memory.
#[tactic(auto, using(part_stretches::proofs::Looping::runs_on, part_stretches::proofs::Looping::runs_over, part_stretches::proofs::Looping::runs_first, part_stretches::proofs::Looping::runs_last))]
pub(crate) fn run_ticking(
    stretches: &[ClassStretch],
    clocks: &[ClockNow],
    words: &mut [i64],
) -> bool
    requires { All (IsRunWithin (length words.old)) stretches.now }
    ensures runs { result ≡ true → RunsFrom 0 (ticking_of clocks.now) stretches.now words.old words.new None }
    ensures size { length words.new ≡ length words.old }
{
    let mut i = 0;
    while i < stretches.len() {
        let one = &stretches[i];
        if ticks_at(clocks, one.class) {
            if let Some(_) = run_lines(&one.stretch, words) {
                return false;
            }
        }
        i += 1;
    }
    true
}
