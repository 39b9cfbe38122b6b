ghost use Rattle.window_shares.specs.Laws.{AcrossLaw, PlannedLaw, RunsLaw, ShareLaw, StopLaw};

/// What shares left of a window is one of the whole model, up to the first moment at which anything failed.
pub fn across_law()
    ensures { AcrossLaw }
{}

/// Moments that were planned ahead are planned for shares.
pub fn planned_law()
    ensures { PlannedLaw }
{}

/// Each share may run a window that was planned.
pub fn share_law()
    ensures { ShareLaw }
{}

/// A window ends with what is told of the first moment at which anything failed.
pub fn stop_law()
    ensures { StopLaw }
{}

/// A window that was planned, and run by shares, is one of a run.
pub fn runs_law()
    ensures { RunsLaw }
{}
