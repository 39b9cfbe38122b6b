ghost use Rattle.mo_order.specs.Graphs.{NeverBothLaw, OneNumberLaw};
ghost use Rattle.mo_order.specs.Values.{OneListLaw};

/// A law, which does nothing when it is called: a graph has an order or a number on a cycle, never both, and one number
/// is the least of those.
pub fn order_law()
    ensures never_both { NeverBothLaw }
    ensures one_number { OneNumberLaw }
{}

/// A law, which does nothing when it is called: rules that are answered for all values find one list of values.
pub fn values_law()
    ensures { OneListLaw }
{}
