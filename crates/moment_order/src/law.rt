ghost use Rattle.moment_order.specs.Laws.{AnswerLaw, MomentLaw, OneDivisionLaw, PureLaw, StagesLaw};

/// The uses that `order` answers are an order of the model, as the laws of a run have it.
pub fn answer_law()
    ensures { AnswerLaw }
{}

/// From the uses that `order` answers: the pure ones, those of each base partition and the unclocked ones that wait for
/// a clock are, behind each other, a free order.
pub fn moment_law()
    ensures { MomentLaw }
{}

/// The uses of a model are divided into stages in one way.
pub fn one_division_law()
    ensures { OneDivisionLaw }
{}

/// Where the conditions of sites rest on no clock, what they rest on is pure by its stage.
pub fn pure_law()
    ensures { PureLaw }
{}

/// The uses in the order of their stages are a free order.
pub fn stages_law()
    ensures { StagesLaw }
{}
