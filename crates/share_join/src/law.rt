ghost use Rattle.share_join.specs.Laws.{DealLaw, FirstLaw, JoinLaw, MomentLaw, RowLaw};

/// The stages of a moment may be dealt to shares.
pub fn deal_law()
    ensures { DealLaw }
{}

/// Each share may be taken before all others.
pub fn first_law()
    ensures { FirstLaw }
{}

/// Shares have a row that joins theirs, for no name is reached by two.
pub fn row_law()
    ensures { RowLaw }
{}

/// What shares took side by side are the stages of the moment, with what they tell.
pub fn join_law()
    ensures { JoinLaw }
{}

/// So the moment was run by its stages.
pub fn moment_law()
    ensures { MomentLaw }
{}
