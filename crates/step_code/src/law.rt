ghost use Rattle.step_code.specs.Laws.{CodeLaw, KnownLaw, LinesLaw};

/// Over cells that stand for views, the code of a known expression gives its value, or its first failure.
pub fn code_law()
    ensures { CodeLaw }
{}

/// A typed expression is known where all that it reads has cells.
pub fn known_law()
    ensures { KnownLaw }
{}

/// The code of several equations gives their values, up to the first that fails.
pub fn lines_law()
    ensures { LinesLaw }
{}
