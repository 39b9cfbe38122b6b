ghost use Rattle.part_words.specs.SetWords.{WordsLaw};

/// Words that are filled for a moment are set for it, and so is what they show of each clock that ticks.
pub fn words_law()
    ensures { WordsLaw }
{}
