ghost use Rattle.part_stretches.specs.Parts.{PartLaw};

/// Over cells that are set for a moment a run of the stretches of a base partition takes the uses of their equations,
/// or tells the first of them to fail.
pub fn part_law()
    ensures { PartLaw }
{}
