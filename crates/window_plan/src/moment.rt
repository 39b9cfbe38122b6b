use first_failure::EquationFailing;
use flat_model::Moment;
use site_risings::SiteFailing;
use sync_values::Value;

/// What is known of a moment before anything of a clock is.
#[derive(Drop)]
pub struct PlannedMoment {
    pub at: Moment,
    /// The values of the inputs and of the names that rest on no clock, by the numbers of names.
    pub base: Vec<Option<Value>>,
    /// What the conditions of the sites gave.
    pub answers: Vec<Option<bool>>,
    /// Which classes tick.
    pub ticks: Vec<bool>,
    /// The first site that fails.
    pub site: Option<SiteFailing>,
    /// Of the uses that rest on no clock, the failing equation of the least number.
    pub told: Option<EquationFailing>,
}
