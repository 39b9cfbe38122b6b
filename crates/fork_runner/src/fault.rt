//! Which fault a moment ends with.
ghost use Rattle.std.specs.Prelude.{◌≡◌};
ghost use Rattle.moment_join.specs.Told.{earlier as earlier_of};
ghost use Rattle.moment_moves.specs.Moments.{fault_of as fault_at};

use first_failure::EquationFailing;
use flat_model::{Fault, FaultPlace, Moment};
use site_risings::SiteFailing;

/// Of two failures that may be told, that of the lesser equation.
pub(crate) fn earlier(
    one: Option<EquationFailing>,
    other: Option<EquationFailing>,
) -> Option<EquationFailing>
    ensures { result ≡ earlier_of one other }
{
    match (one, other) {
        (None, told) => told,
        (told, None) => told,
        (Some(one), Some(other)) => {
            if one.equation <= other.equation {
                Some(one)
            } else {
                Some(other)
            }
        }
    }
}

/// The fault of a moment: that of a site comes before that of an equation.
pub(crate) fn fault_of(
    at: Moment,
    site: Option<SiteFailing>,
    told: Option<EquationFailing>,
) -> Option<Fault>
    ensures { result ≡ fault_at at site told }
{
    match (site, told) {
        (Some(failing), _) => Some(Fault {
            moment: at,
            place: FaultPlace::Site(failing.site),
            kind: failing.kind,
        }),
        (None, Some(failing)) => Some(Fault {
            moment: at,
            place: FaultPlace::Equation(failing.equation),
            kind: failing.kind,
        }),
        (None, None) => None,
    }
}
