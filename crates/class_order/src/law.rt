ghost use Rattle.class_order.specs.Laws.{NeverBothLaw, OnePlaceLaw, OneMarkLaw};

/// A law, which does nothing when it is called: classes have an order or one inside itself, never both; one place is
/// the first where N4 is broken; and of a reached class one mark tells whether it has something in it.
pub fn class_order_law()
    ensures never_both { NeverBothLaw }
    ensures one_place { OnePlaceLaw }
    ensures one_mark { OneMarkLaw }
{}
