use crate::clock::Moment;
use sync_values::Fail;

/// Where an arithmetic fault comes from.
#[derive(Clone, Copy)]
pub enum FaultPlace {
    Equation(u32),
    /// The condition of an event clock.
    Site(u32),
}

/// The first arithmetic fault of a run.
#[derive(Clone, Copy)]
pub struct Fault {
    pub moment: Moment,
    pub place: FaultPlace,
    pub kind: Fail,
}
