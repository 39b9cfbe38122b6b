ghost use Rattle.filled_instances.specs.Laws.{NothingCountsLaw};

/// A law, which does nothing when it is called: an instance of a class that has nothing in it has no item that counts, at any
/// number of levels.
pub fn filled_instances_law()
    ensures nothing_counts { NothingCountsLaw }
{}
