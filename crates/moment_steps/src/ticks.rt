//! Which classes tick at a moment, told once for all threads.
ghost use Rattle.std.specs.Prelude.{◌≡◌, ◌<◌, ◌^◌, length};
ghost use Rattle.moment_steps.specs.Ticked.{row_ticks};
ghost use Rattle.partition_step.specs.Writing.{IsWritten};

use tick_plan::Ticking;

/// Whether each class ticks.
#[derive(Drop)]
pub struct TickRow<'a> {
    pub ticks: &'a [bool],
}

impl<'a> Ticking for TickRow<'a> {
    ghost use Rattle.moment_steps.specs.Ticked.{row_ticks};

    ghost ticks = { λ row. row_ticks row.ticks.now };

    fn ticking(&self, class: u32) -> bool {
        ticks_at(self.ticks, class as usize)
    }
}

/// Whether a class ticks, as a row tells it.
pub(crate) fn ticks_at(ticks: &[bool], class: usize) -> bool
    ensures { result ≡ row_ticks ticks.now class }
{
    match ticks.get(class) {
        Some(ticks) => *ticks,
        None => false,
    }
}

/// Asks a plan of each class.
pub(crate) fn ask_ticks<P: Ticking>(plan: &P, ticks: &mut [bool])
    requires { length ticks.old < 2 ^ 32 }
    ensures { IsWritten (λ class old. P.ticks plan.now class) ticks.old ticks.new }
{
    for class in 0..ticks.len() {
        ticks[class] = plan.ticking(class as u32);
    }
}
