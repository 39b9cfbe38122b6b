ghost use Rattle.clock_terms.specs.Laws.{TermsOnceLaw};

/// All terms of a model say the same: nodes, constructors and relations in one order, and the same joins, marks, holds
/// and conversions, whatever list they stand in.
pub fn terms_once_law()
    ensures { TermsOnceLaw }
{}
