//! Laws of the meaning, which tell it from its likeliest misreadings.
ghost use Rattle.flat_model.specs.MeaningLaws as law;

/// Event clocks tick at every factor-th rising from their shift on, their interval is the time since the tick before,
/// they count in the plan as ticking at each row, and they meet those of their own site alone.
pub fn event_clock_law()
    ensures ticks { law.EventTickLaw }
    ensures interval { law.EventIntervalLaw }
    ensures plan { law.EventPlanLaw }
    ensures axis { law.EventAxisLaw }
{}

/// What is known of a clock and what a last value is, at a moment whose values are still being derived.
pub fn known_value_law()
    ensures known { law.KnownLaw }
    ensures last_value { law.LastValueLaw }
{}

/// A name that stands also under `hold` or a conversion is not solved for.
pub fn solvable_law()
    ensures held { law.HeldAsideLaw }
    ensures converted { law.ConvertedAsideLaw }
{}

/// What fails first: the failing site of least number, whose reads all have values, else the first failing equation.
pub fn first_failure_law()
    ensures reads { law.SiteReadsLaw }
    ensures site { law.FirstSiteLaw }
    ensures equation { law.FirstEquationLaw }
    ensures sites_first { law.SitesFirstLaw }
{}
