ghost use Rattle.clock_ready.specs.Laws.{CheckOnceLaw, FitLaw, OwnLaw};

/// The terms and the classes of a model fit together: each name and node that the terms name has a class, the numbers
/// of constructors are within their limits, and each factor is given or to be inferred. So clocks can be solved and
/// checked on them.
pub fn fit_law()
    ensures { FitLaw }
{}

/// The clocks that were solved have one answer: the first rule that is broken, or one clocking.
pub fn check_once_law()
    ensures { CheckOnceLaw }
{}

/// Where no class has both marks, each name that stands uncut in an equation has the class of the equation.
pub fn own_law()
    ensures { OwnLaw }
{}
