ghost use Rattle.std.specs.Prelude.{◌≡◌, false, [], ◌∷◌, Some, length, if◌then◌else◌};
ghost use Rattle.rational_time.specs.declared.ratio.Ratio.{Ratio};
ghost use Rattle.flat_model.specs.declared.clock.Moment.TheVariants.{At};
ghost use Rattle.tick_plan.specs.Plans.{CanRise, after_rise};
ghost use Rattle.tick_plan.specs.Seen.{grid_seen};
ghost use Rattle.tick_plan.specs.SeenFractions.{fraction_seen};

use crate::given::{Form, Parts, case_given};
use flat_model::Moment;
use std::alloc::Global;
use std::process::Abort;
use tick_plan::{FractionPlan, GridPlan, TickSource};

/// A plan in units, over two sites.
pub(crate) fn grid_plan(
    rt: &impl Abort,
    alloc: Global,
    bytes: &[u8],
    forms: &[Form],
    grid: u64,
    stop: Parts,
) -> GridPlan
    ensures { length (grid_seen result).noted ≡ 2 }
{
    let given = case_given(rt, alloc, bytes, forms, grid, stop);
    GridPlan::new(
        alloc,
        &given.flat,
        &given.clocking,
        &given.table,
        given.stop,
    )
    .expect(rt, "a plan")
}

/// A plan on fractions, over two sites.
pub(crate) fn fraction_plan(
    rt: &impl Abort,
    alloc: Global,
    bytes: &[u8],
    forms: &[Form],
    grid: u64,
    stop: Parts,
) -> FractionPlan
    ensures { length (fraction_seen result).noted ≡ 2 }
{
    let given = case_given(rt, alloc, bytes, forms, grid, stop);
    FractionPlan::new(
        alloc,
        &given.flat,
        &given.clocking,
        &given.table,
        given.stop,
    )
    .expect(rt, "a plan")
}

/// Notes a site, if it rises.
fn note_one<P: TickSource>(plan: &mut P, site: u32, rises: bool)
    requires { CanRise (P.planned plan.old) site }
    ensures { P.planned plan.new ≡ (if rises then after_rise (P.planned plan.old) site else P.planned plan.old) }
{
    if rises {
        plan.rise(site);
    }
}

/// Notes the sites that rise at the instant given last.
fn note<P: TickSource>(plan: &mut P, first: bool, second: bool)
    requires at { (at : Ratio) × ((P.planned plan.old).given ≡ Some (At at)) }
    requires fresh { (P.planned plan.old).noted ≡ false ∷ (false ∷ []) }
    ensures { length (P.planned plan.new).noted ≡ 2 }
{
    note_one(plan, 0, first);
    note_one(plan, 1, second);
}

/// Goes on to the next moment, and notes the sites that rise at it if it is an instant.
pub(crate) fn go_on<P: TickSource>(plan: &mut P, rises: [bool; 2]) -> Option<Moment>
    requires { length (P.planned plan.old).noted ≡ 2 }
    ensures { length (P.planned plan.new).noted ≡ 2 }
{
    let Some(moment) = plan.next() else {
        return None;
    };
    if let Moment::At(_) = moment {
        note(plan, rises[0], rises[1]);
    }
    Some(moment)
}

/// Whether a moment is this instant, in lowest terms.
pub(crate) fn is_at(moment: Option<Moment>, parts: Parts) -> bool {
    match moment {
        Some(Moment::At(at)) => at.num() == parts.0 && at.den() == parts.1,
        _ => false,
    }
}

pub(crate) fn is_initial(moment: Option<Moment>) -> bool {
    match moment {
        Some(Moment::Initial) => true,
        _ => false,
    }
}

/// Asserts a fact of a case.
pub(crate) fn assert_for(rt: &impl Abort, holds: bool, name: &str) {
    assert!(rt; holds, "{name}");
}

/// Asserts a number of a case.
pub(crate) fn assert_number(rt: &impl Abort, found: u64, wanted: u64, name: &str) {
    assert_eq!(rt; found, wanted, "{name}");
}

/// Asserts whether a class of a case ticks.
pub(crate) fn assert_tick(rt: &impl Abort, found: bool, wanted: bool, name: &str, class: u32) {
    assert_eq!(rt; found, wanted, "{name}: class {class}");
}
