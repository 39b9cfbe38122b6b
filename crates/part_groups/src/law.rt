ghost use Rattle.part_groups.specs.Laws.{DistinctLaw, GroupLaw, OneGroupingLaw, UnitLaw};

/// Two units are of one group exactly where a chain of needs joins them.
pub fn group_law()
    ensures { GroupLaw }
{}

/// Units have one grouping.
pub fn one_grouping_law()
    ensures { OneGroupingLaw }
{}

/// Each use of a base partition, and each use that waits for a clock, is of the unit of its number.
pub fn unit_law()
    ensures { UnitLaw }
{}

/// The uses of a model reach each a name of its own.
pub fn distinct_law()
    ensures { DistinctLaw }
{}
