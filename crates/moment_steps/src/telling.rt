//! What the base partitions tell of their failures.
ghost use Rattle.std.specs.Prelude.{◌≡◌, map};
ghost use Rattle.moment_join.specs.Told.{earlier as earlier_of, earliest};
ghost use Rattle.moment_steps.specs.Gathered.{told_in};

use crate::piece::Piece;
use first_failure::EquationFailing;
use fork_steps::Slot;

/// Of two failures that may be told, that of the lesser equation.
pub fn earlier(
    one: Option<EquationFailing>,
    other: Option<EquationFailing>,
) -> Option<EquationFailing>
    ensures { result ≡ earlier_of one other }
{
    match (one, other) {
        (None, told) => told,
        (told, None) => told,
        (Some(one), Some(other)) => {
            if one.equation <= other.equation {
                Some(one)
            } else {
                Some(other)
            }
        }
    }
}

fn told_in(slot: &Slot<Piece>) -> Option<EquationFailing>
    ensures { result ≡ told_in slot.now }
{
    if slot.counts { slot.piece.told } else { None }
}

/// The failure of the least equation that a stepped piece tells.
pub fn least_told(slots: &[Slot<Piece>]) -> Option<EquationFailing>
    ensures { result ≡ earliest (map told_in slots.now) }
{
    let mut told = None;
    let mut place = slots.len();
    while place > 0 {
        place -= 1;
        told = earlier(told_in(&slots[place]), told);
    }
    told
}
