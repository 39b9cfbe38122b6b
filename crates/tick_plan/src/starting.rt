ghost use Rattle.std.specs.Prelude.{◌≡◌, ◌<◌, IfOk};
ghost use Rattle.flat_model.specs.Tables.{AreTimes};
ghost use Rattle.tick_plan.specs.private.Axis.{IsLimit, IsSound};
ghost use Rattle.tick_plan.specs.private.Grid.{IsScaled};
ghost use Rattle.tick_plan.specs.NewPlan.{IsFirstCourse};

use crate::axis::Axis;
use crate::course::Course;
use crate::leaves::{Units, leaves, parts};
use flat_model::Clock;
use rational_time::Ratio;
use std::alloc::{AllocError, Global};
use sync_values::List;
use tick_tree::build;

/// The course before its first moment.
pub(crate) fn first_course(
    alloc: Global,
    clocks: &[Clock],
    times: &[Ratio],
    stop: Ratio,
) -> Result<Course, AllocError>
    ensures { IfOk result (IsFirstCourse clocks.now times.now stop) }
{
    Ok(Course {
        clocks: List::from_vec(Vec::from_slice(alloc, clocks)?),
        times: List::from_vec(Vec::from_slice(alloc, times)?),
        stop,
        row: 0,
        given: None,
    })
}

/// The same with the first ticks in units.
pub(crate) fn first_axis(
    alloc: Global,
    course: Course,
    den: u64,
    limit: u64,
    units: &Units,
) -> Result<Axis, AllocError>
    requires first { IsFirstCourse course.clocks course.times course.stop course }
    requires times { AreTimes course.times }
    requires grain { 0 < den }
    requires limit { IsLimit den course.stop limit }
    requires units { IsScaled course.clocks den limit units.now.firsts.items units.now.steps.items }
    ensures sound { IfOk result IsSound }
    ensures course { IfOk result (λ axis. axis.course ≡ course) }
    ensures den { IfOk result (λ axis. axis.den ≡ den) }
    ensures limit { IfOk result (λ axis. axis.limit ≡ limit) }
{
    let leaves = leaves(
        alloc,
        course.clocks.as_slice(),
        units.firsts.as_slice(),
        units.steps.as_slice(),
    )?;
    let leaves = parts(alloc, leaves.as_slice())?;
    let nodes = build(alloc, leaves.firsts.as_slice())?;
    Ok(Axis {
        course,
        den,
        limit,
        nodes,
        steps: leaves.steps,
    })
}
