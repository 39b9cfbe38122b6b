ghost use Rattle.first_failure.specs.CarefulLaws.{CarefulLaw};
ghost use Rattle.first_failure.specs.Lone.{LoneLaw};
ghost use Rattle.first_failure.specs.MomentLaws.{AgainLaw, MomentLaw, SomeLaw};
ghost use Rattle.first_failure.specs.Ready.{ReadyLaw};
ghost use Rattle.first_failure.specs.Turns.{LeastLaw, OneToldLaw};

/// Over uses that were taken the least equation to fail at the turn of its use is the least to fail over the last row.
pub fn least_law()
    ensures { LeastLaw }
{}

/// A use counts where its class ticks and all that it reads can be read, and is left out elsewhere.
pub fn ready_law()
    ensures { ReadyLaw }
{}

/// A run of one line that is ready does what its use does over the row, whatever failed before.
pub fn lone_law()
    ensures { LoneLaw }
{}

/// The careful run takes the uses of its lines, and tells the least of exactly those of their equations that fail over
/// the row that they leave; nothing is told where none fails.
pub fn careful_law()
    ensures { CarefulLaw }
{}

/// A run of the stretches of a base partition that failed leaves the cells set for the careful run.
pub fn again_law()
    ensures { AgainLaw }
{}

/// Where the run of the stretches failed, the least equation that fails over the row that all uses leave is there.
pub fn some_law()
    ensures { SomeLaw }
{}

/// What is told of the uses of a base partition holds over the values of the moment.
pub fn moment_law()
    ensures { MomentLaw }
{}

/// What is told of uses over a row is one.
pub fn one_told_law()
    ensures { OneToldLaw }
{}
