ghost use Rattle.clock_sides.specs.Laws.{RunnableLaw};

/// The model with the clocking that its classes, its clocks and the checks of them give, and with a table of it, is what
/// a run asks: each side of an equation agrees with its class, conversions stay on one axis and in one base partition,
/// and the conditions of sites are Booleans of constants and unclocked names.
pub fn runnable_law()
    ensures { RunnableLaw }
{}
