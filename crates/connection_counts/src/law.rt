ghost use Rattle.connection_counts.specs.Laws.{CountLaw};

/// A law, which does nothing when it is called: the equations of connection sets are at most as many as the pairs that make
/// the sets.
pub fn count_law()
    ensures { CountLaw }
{}
