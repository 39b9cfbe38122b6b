ghost use Rattle.std.specs.Prelude.{◌≡◌};
ghost use Rattle.first_failure.specs.Careful.{less_of};

use sync_values::Fail;

/// An equation that fails: its number in the flat model, and how it fails.
#[derive(Clone, Copy, Debug, PartialEq, Eq)]
pub struct EquationFailing {
    pub equation: u32,
    pub kind: Fail,
}

/// Of the failure that is told so far and a further one, that of the lesser equation.
pub fn lesser(told: Option<EquationFailing>, other: EquationFailing) -> EquationFailing
    ensures { result ≡ less_of told other }
{
    match told {
        Some(failing) if failing.equation <= other.equation => failing,
        _ => other,
    }
}
