ghost use Rattle.eq_order.specs.Order.{AnswerLaw, OrderLaw};

/// In an order each name is in one use and each equation between values in one use, and what a use reads now, but for
/// the name that it reaches, is in an earlier use.
pub fn order_law()
    ensures { OrderLaw }
{}

/// But for want of memory, a model and its clocking have one answer.
pub fn answer_law()
    ensures { AnswerLaw }
{}
