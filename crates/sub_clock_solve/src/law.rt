ghost use Rattle.sub_clock_solve.specs.Laws.{OneClockingLaw, ConflictLaw, OneAnswerLaw};

/// Where each clocked class gets a clock in some round, every clocking gives each class just that clock, so there is
/// at most one.
pub fn one_clocking_law()
    ensures { OneClockingLaw }
{}

/// Where a constructor or a relation with a given factor does not hold on the clocks of the rounds, there is no clocking.
pub fn conflict_law()
    ensures { ConflictLaw }
{}
/// Terms and classes have one answer: one end, or one list of clocks in lowest terms.
pub fn one_answer_law()
    ensures { OneAnswerLaw }
{}
