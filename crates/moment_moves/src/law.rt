ghost use Rattle.moment_moves.specs.Laws.{KeptLaw, MomentLaw, TicksLaw};

/// A moment that was run by its stages goes on, alone in meeting the model, or ends with the first fault.
pub fn moment_law()
    ensures { MomentLaw }
{}

/// The ticks that a plan tells at a moment are those of the assignment.
pub fn ticks_law()
    ensures { TicksLaw }
{}

/// The last value of a name before the next moment is that of the moment where it ticks, else the one before.
pub fn kept_law()
    ensures { KeptLaw }
{}
