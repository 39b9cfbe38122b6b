ghost use Rattle.partition_step.specs.Laws.{RestsLaw, PlacesLaw, OthersLaw, OneStepLaw};

/// A part none of whose classes ticks at a moment stands before the next one without a step.
pub fn rests_law()
    ensures { RestsLaw }
{}

/// A part stays that of its uses where the places of their names stay.
pub fn places_law()
    ensures { PlacesLaw }
{}

/// A part has no value of a name that its uses do not reach.
pub fn others_law()
    ensures { OthersLaw }
{}

/// A step from a row has one outcome, and leaves one value of each name.
pub fn one_step_law()
    ensures { OneStepLaw }
{}
