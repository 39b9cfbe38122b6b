ghost use Rattle.instance_sizes.specs.Laws.{SameVariablesLaw, SameGroupsLaw, SamePairsLaw, FewNamesLaw, FewEquationsLaw, OnePlaceLaw};

/// A law, which does nothing when it is called: the items that have a part in a model have all its variables, equations and
/// pairs; where N10 is kept, names and equations, with the pairs of connects, are within the limits; and N10 has one place.
pub fn instance_sizes_law()
    ensures same_variables { SameVariablesLaw }
    ensures same_groups { SameGroupsLaw }
    ensures same_pairs { SamePairsLaw }
    ensures few_names { FewNamesLaw }
    ensures few_equations { FewEquationsLaw }
    ensures one_place { OnePlaceLaw }
{}
