ghost use Rattle.std.specs.Prelude.{◌≡◌, true, false};
ghost use Rattle.window_plan.specs.Moments.{IsQuiet};
ghost use Rattle.window_plan.specs.Windows.{CanPlan, Plans, EndsSo};

use crate::moment::PlannedMoment;
use crate::planning::plan_one;
use crate::taking::PureUses;
use moment_body::ClockedModel;
use tick_plan::TickSource;

/// Moments of a run that are planned ahead: all of them that rests on no clocked name.
#[derive(Drop)]
pub struct WindowPlan {
    pub pure: PureUses,
    /// Which conditions of sites were false at the moment planned last.
    pub low: Vec<bool>,
    /// Room for the moments of a window.
    pub moments: Vec<PlannedMoment>,
    /// How many of them were planned last.
    pub count: usize,
}

/// Whether a site failed at a moment, or a use that rests on no clock.
fn fails(moment: &PlannedMoment) -> bool
    ensures quiet { result ≡ false → IsQuiet moment.now }
    ensures fails { result ≡ true → IsQuiet moment.now → ⊥ }
{
    moment.site.is_some() || moment.told.is_some()
}

/// Plans the next moments of a run, as many as there is room for. The answer is their number.
fn plan_moments<P: TickSource>(
    model: &ClockedModel,
    plan: &mut P,
    pure: &mut PureUses,
    low: &mut [bool],
    moments: &mut [PlannedMoment],
) -> usize
    requires { CanPlan model.now (record { plan = P.planned plan.old; pure = pure.old; low = low.old; moments = moments.old }) }
    ensures plans { Plans model.entry.now (record { plan = P.planned plan.old; pure = pure.old; low = low.old; moments = moments.old }) (record { plan = P.planned plan.new; pure = pure.new; low = low.new; moments = moments.new }) result }
    ensures ends { EndsSo (record { plan = P.planned plan.old; pure = pure.old; low = low.old; moments = moments.old }) (record { plan = P.planned plan.new; pure = pure.new; low = low.new; moments = moments.new }) result }
{
    for count in 0..moments.len() {
        if !plan_one(model, plan, pure, low, &mut moments[count]) {
            return count;
        }
        if fails(&moments[count]) {
            return count + 1;
        }
    }
    moments.len()
}

impl WindowPlan {
    /// Plans the next moments of a run, as many as there is room for: their inputs, the names that rest on no clock, what the
    /// conditions of the sites give, which are noted where they rise, and which classes tick. A window ends early where a site
    /// or a use that rests on no clock fails, and where no moment is left. It takes no memory.
    ///
    /// Source: this project's own.
    pub fn plan<P: TickSource>(&mut self, model: &ClockedModel, plan: &mut P)
        requires { CanPlan model.now (record { plan = P.planned plan.old; pure = self.old.pure; low = self.old.low.items; moments = self.old.moments.items }) }
        ensures plans { Plans model.entry.now (record { plan = P.planned plan.old; pure = self.old.pure; low = self.old.low.items; moments = self.old.moments.items }) (record { plan = P.planned plan.new; pure = self.new.pure; low = self.new.low.items; moments = self.new.moments.items }) self.new.count }
        ensures ends { EndsSo (record { plan = P.planned plan.old; pure = self.old.pure; low = self.old.low.items; moments = self.old.moments.items }) (record { plan = P.planned plan.new; pure = self.new.pure; low = self.new.low.items; moments = self.new.moments.items }) self.new.count }
    {
        self.count = plan_moments(
            model,
            plan,
            &mut self.pure,
            self.low.as_mut_slice(),
            self.moments.as_mut_slice(),
        );
    }
}
