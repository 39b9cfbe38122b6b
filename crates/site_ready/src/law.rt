ghost use Rattle.site_ready.specs.Laws.{RestsLaw, UnheldLaw};

/// The variables in the classes of event conditions are a group that waits for no clock: they are unclocked, what stands
/// bare beside one of them is of the group or an input, and no equation in which one stands bare holds a name.
pub fn unheld_law()
    ensures { UnheldLaw }
{}

/// What the condition of each site reads is an input, or a variable of this group, of a type that has values.
pub fn rests_law()
    ensures { RestsLaw }
{}
