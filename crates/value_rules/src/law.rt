ghost use Rattle.value_rules.specs.Faults.{OneFaultLaw};

/// A law, which does nothing when it is called: of a model only one answer of `value_fault` is right.
pub fn value_law()
    ensures { OneFaultLaw }
{}
