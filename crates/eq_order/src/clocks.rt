//! Whether clocks share an instant.
ghost use Rattle.std.specs.Prelude.{◌≡◌, ℕ, ◌*◌, ◌+◌, ◌<◌, ◌^◌, ◌↔◌, IsTrue, [], ◌∷◌, List, slice_get};
ghost use Rattle.rational_time.specs.Multiple.{HasMultipleBelow};
ghost use Rattle.flat_model.specs.Clocks.{ShareInstant};
ghost use Rattle.flat_model.specs.Runnable.{AreClocks, denominators};
ghost use Rattle.flat_model.specs.Setting.{Setting, flattened};
ghost use Rattle.flat_model.specs.Uses.{ClassesMeet};
ghost use Rattle.eq_order.specs.private.Clocks.{Rises};

use flat_model::{Clock, Clocking};
use rational_time::{make, share_instant};

/// Whether two rising series `first + i*step` of whole numbers share a number.
fn series_meet(step: u64, first: u64, other_step: u64, other_first: u64) -> bool
    requires step { 0 < step }
    requires other_step { 0 < other_step }
    ensures { IsTrue result ↔ ((i : ℕ) × (j : ℕ) × (step * i + first ≡ other_step * j + other_first)) }
{
    share_instant(
        make(step, 1),
        make(first, 1),
        make(other_step, 1),
        make(other_first, 1),
    )
}

/// Whether two clocks share an instant: some position of the one is a position of the other on the same axis.
fn clocks_meet(a: Clock, b: Clock) -> bool
    requires first { Rises a }
    requires second { Rises b }
    requires grid { HasMultipleBelow (2 ^ 40) (denominators (a ∷ b ∷ [])) }
    ensures { IsTrue result ↔ ShareInstant a b }
{
    match (a, b) {
        (
            Clock::Periodic { period, start },
            Clock::Periodic {
                period: other_period,
                start: other_start,
            },
        ) => share_instant(period, start, other_period, other_start),
        (
            Clock::Event {
                site,
                factor,
                shift,
            },
            Clock::Event {
                site: other_site,
                factor: other_factor,
                shift: other_shift,
            },
        ) => site == other_site && series_meet(factor, shift, other_factor, other_shift),
        _ => false,
    }
}

/// The class of a name or of an equation, where it has one.
pub(crate) fn class_at(classes: &[Option<u32>], at: u32) -> Option<u32>
    ensures { result ≡ flattened (slice_get classes.now at) }
{
    match classes.get(at as usize) {
        Some(class) => *class,
        None => None,
    }
}

/// Whether the clocks of two classes share an instant.
pub(crate) fn classes_meet(clocking: &Clocking, a: Option<u32>, b: Option<u32>) -> bool
    requires { AreClocks clocking.now }
    ensures { (s : Setting) → s.clocking ≡ clocking.now → IsTrue result ↔ ClassesMeet s a b }
{
    let Some(a) = a else {
        return false;
    };
    let Some(b) = b else {
        return false;
    };
    let Some(a) = clocking.clocks.get(a as usize) else {
        return false;
    };
    let Some(b) = clocking.clocks.get(b as usize) else {
        return false;
    };
    clocks_meet(*a, *b)
}
