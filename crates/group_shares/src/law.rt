ghost use Rattle.group_shares.specs.Laws.{GivenLaw, SharesLaw};

/// The groups of the units of work of a model, given to shares in whatever way, are shares that may run apart: side by side at
/// a moment, and each by itself over many.
pub fn shares_law()
    ensures { SharesLaw }
{}

/// Each share has the base partitions and the waiting uses whose group is given to it, and no others.
pub fn given_law()
    ensures { GivenLaw }
{}
