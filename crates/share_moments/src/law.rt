ghost use Rattle.share_moments.specs.Laws.{DealLaw, GroupsLaw, NamesLaw, RunLaw, TakenLaw};

/// The stages of a moment may be dealt to shares that do not name what another reaches.
pub fn deal_law()
    ensures { DealLaw }
{}

/// Shares of whole groups do not name what another reaches.
pub fn groups_law()
    ensures { GroupsLaw }
{}

/// Shares of which none names what another reaches may run side by side, and each by itself.
pub fn names_law()
    ensures { NamesLaw }
{}

/// What a share took is what it took beside others.
pub fn taken_law()
    ensures { TakenLaw }
{}

/// A moment that all shares took is one of the model by its stages.
pub fn run_law()
    ensures { RunLaw }
{}
