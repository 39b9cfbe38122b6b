//! One moment, planned.
ghost use Rattle.std.specs.Prelude.{◌≡◌, ◌≢◌, ◌<◌, ◌^◌, [], length, true, false};
ghost use Rattle.partition_step.specs.Writing.{IsWritten};
ghost use Rattle.window_plan.specs.Drafts.{CanFill, Fills, CanPlanOne, PlansOne};

use crate::moment::PlannedMoment;
use crate::taking::PureUses;
use flat_model::Moment;
use moment_body::ClockedModel;
use moment_inputs::fill_inputs;
use site_risings::{answer_sites, note_sites};
use tick_plan::TickSource;

/// Asks a plan of each class whether it ticks.
fn ask_ticks<P: TickSource>(plan: &P, ticks: &mut [bool])
    requires { length ticks.old < 2 ^ 32 }
    ensures { IsWritten (λ class old. P.ticks plan.now class) ticks.old ticks.new }
{
    for class in 0..ticks.len() {
        ticks[class] = plan.ticking(class as u32);
    }
}

/// Plans a moment that a plan gave: its inputs, the names that rest on no clock, its sites, which are noted where they rise,
/// and its ticks.
fn fill_moment<P: TickSource>(
    model: &ClockedModel,
    at: Moment,
    plan: &mut P,
    pure: &mut PureUses,
    low: &mut [bool],
    moment: &mut PlannedMoment,
)
    requires { CanFill model.now at (record { plan = P.planned plan.old; pure = pure.old; low = low.old; moment = moment.old }) }
    ensures fills { Fills model.entry.now at (record { plan = P.planned plan.old; pure = pure.old; low = low.old; moment = moment.old }) (record { plan = P.planned plan.new; pure = pure.new; low = low.new; moment = moment.new }) }
    ensures long { length low.new ≡ length low.old }
{
    moment.at = at;
    let base = moment.base.as_mut_slice();
    let answers = moment.answers.as_mut_slice();
    fill_inputs(&model.table, at, base);
    moment.told = pure.take(&model.flat, base);
    moment.site = answer_sites(model.clocking.sites.as_slice(), base, answers);
    note_sites(plan, answers, low);
    ask_ticks(plan, moment.ticks.as_mut_slice());
}

/// Plans the next moment of a run, where one is left.
pub(crate) fn plan_one<P: TickSource>(
    model: &ClockedModel,
    plan: &mut P,
    pure: &mut PureUses,
    low: &mut [bool],
    moment: &mut PlannedMoment,
) -> bool
    requires { CanPlanOne model.now (record { plan = P.planned plan.old; pure = pure.old; low = low.old; moment = moment.old }) }
    ensures { PlansOne model.entry.now (record { plan = P.planned plan.old; pure = pure.old; low = low.old; moment = moment.old }) (record { plan = P.planned plan.new; pure = pure.new; low = low.new; moment = moment.new }) result }
{
    let Some(at) = plan.next() else {
        return false;
    };
    fill_moment(model, at, plan, pure, low, moment);
    true
}
