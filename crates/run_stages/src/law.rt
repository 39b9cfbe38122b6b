ghost use Rattle.run_stages.specs.Laws.{StagedLaw};

/// The uses of the stages of a model: the pure ones rest on no clock and reach what the conditions of sites read, and those
/// of base partitions need nothing of each other.
pub fn staged_law()
    ensures { StagedLaw }
{}
