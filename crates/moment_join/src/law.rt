ghost use Rattle.moment_join.specs.Laws.{GoesOnLaw, HoldsLaw, SitesLaw, TakenLaw, ToldLaw};

/// The stages of a moment behind each other take all uses from the inputs.
pub fn taken_law()
    ensures { TakenLaw }
{}

/// The least failure that a stage tells over the row that it left is the least over the last row.
pub fn told_law()
    ensures { ToldLaw }
{}

/// Sites answer over what the pure uses left as over the last row.
pub fn sites_law()
    ensures { SitesLaw }
{}

/// Where no equation fails and all sites have values, a run goes on.
pub fn goes_on_law()
    ensures { GoesOnLaw }
{}

/// Where no pure use and no site fails, the condition of each site has a value.
pub fn holds_law()
    ensures { HoldsLaw }
{}
