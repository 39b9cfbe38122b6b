ghost use Rattle.window_join.specs.Laws.{AloneLaw, FailsLaw, RowsLaw, WindowLaw};

/// An assignment with the rows of a window has them from its first moment on, and is as it was before.
pub fn rows_law()
    ensures { RowsLaw }
{}

/// Where nothing failed at the moments of a window, the assignment alone meets the model behind them.
pub fn alone_law()
    ensures { AloneLaw }
{}

/// What fails at a moment that was run is the first fault, and nothing meets the model up to it.
pub fn fails_law()
    ensures { FailsLaw }
{}

/// Moments that were run, shown from the first one on, are a window of a run.
pub fn window_law()
    ensures { WindowLaw }
{}
