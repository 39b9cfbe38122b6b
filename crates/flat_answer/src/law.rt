ghost use Rattle.flat_answer.specs.Answers.{OneAnswerLaw};

/// A law, which does nothing when it is called: two answers that are right for one text and one choice of a class are the
/// same, unless memory was refused.
pub fn flatten_law()
    ensures { OneAnswerLaw }
{}
