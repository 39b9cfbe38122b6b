ghost use Rattle.flat_types.specs.Laws.{AnswerLaw};

/// Two answers of [`crate::typed`] to one raw model are one, but for want of memory.
pub fn answer_law()
    ensures { AnswerLaw }
{}
