ghost use Rattle.site_risings.specs.Laws.{AnswersLaw, RisingsLaw};

/// What is answered of the sites over the values of a moment is what they answer, and which fails first.
pub fn answers_law()
    ensures { AnswersLaw }
{}

/// What is noted at a moment are the risings of an assignment.
pub fn risings_law()
    ensures { RisingsLaw }
{}
