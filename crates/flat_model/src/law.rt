ghost use Rattle.flat_model.specs.Laws.{TickLaw, OneUsesLaw, OneGivenLaw, OneInstantsLaw, ConditionLaw};

/// A Periodic clock ticks at an instant by the test exactly where the instant is one of its positions.
pub fn tick_law()
    ensures { TickLaw }
{}

/// A model has one list of uses.
pub fn uses_law()
    ensures { OneUsesLaw }
{}

/// The values that are given at a moment are one row.
pub fn given_law()
    ensures { OneGivenLaw }
{}

/// A run has one list of instants.
pub fn instants_law()
    ensures { OneInstantsLaw }
{}

/// What a condition gives over the values of a moment is the answer of its site.
pub fn condition_law()
    ensures { ConditionLaw }
{}
