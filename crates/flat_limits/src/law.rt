ghost use Rattle.flat_limits.specs.Laws.{FlatLimitsLaw};

/// A law, which does nothing when it is called: the flat model of a class that breaks no rule, of the tree of a text, keeps all
/// that is asked of a flat model before its types are known.
pub fn flat_limits_law()
    ensures { FlatLimitsLaw }
{}
