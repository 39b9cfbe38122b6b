ghost use Rattle.tick_plan.specs.Laws.{FewOrManyLaw, OneCountLaw, OneNewPlanLaw};

/// What `new` answers is one, but for want of memory.
pub fn new_plan_law()
    ensures count { OneCountLaw }
    ensures plan { OneNewPlanLaw }
    ensures end { FewOrManyLaw }
{}
