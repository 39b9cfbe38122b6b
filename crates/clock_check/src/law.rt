ghost use Rattle.clock_check.specs.Laws.{ReadyLaw};

/// The clocking of a model gives a run its classes and clocks: each name and equation has a class with a clock or is
/// unclocked, inputs are unclocked, and the clocks are within the limits.
pub fn ready_law()
    ensures { ReadyLaw }
{}
