ghost use Rattle.std.specs.Prelude.{◌≡◌, ℕ, ◌+◌, ◌*◌, ◌<◌, ◌≤◌, ◌==◌, length, get_or, Some};
ghost use Rattle.flat_model.specs.declared.clock.Moment.TheVariants.{At};
ghost use Rattle.tick_tree.specs.Tree.{IsTree, leaf_of};
ghost use Rattle.tick_plan.specs.private.Axis.{IsSound, IsSameAxis, passed_key};
ghost use Rattle.tick_plan.specs.private.Course.{NextIs, TickAhead};

use crate::axis::Axis;
use crate::course::{earlier, row_after, row_ahead};
use flat_model::Moment;
use rational_time::{Ratio, make};
use tick_tree::advance;

/// The first tick after the moment given last.
fn tick_ahead(axis: &Axis) -> Option<Ratio>
    requires { IsSound axis.now }
    ensures { ∥ TickAhead axis.now.course result ∥₁ }
{
    let nodes = axis.nodes.as_slice();
    if nodes.len() < 2 {
        return None;
    }
    if nodes[1] < axis.limit {
        Some(make(nodes[1], axis.den))
    } else {
        None
    }
}

/// The first instant after the moment given last.
pub(crate) fn next_instant(axis: &Axis) -> Option<Ratio>
    requires { IsSound axis.now }
    ensures { ∥ NextIs axis.now.course result ∥₁ }
{
    earlier(row_ahead(&axis.course), tick_ahead(axis))
}

/// Whether `units/den` is `t`.
fn is_at(units: u64, den: u64, t: Ratio) -> bool
    ensures { result ≡ (units * t.den == t.num * den) }
{
    u128::from(units) * u128::from(t.den()) == u128::from(t.num()) * u128::from(den)
}

/// Moves on the leaves that are at an instant, which no leaf is before.
fn pass_ticks(nodes: &mut [u64], steps: &[u64], den: u64, limit: u64, t: Ratio)
    requires tree { IsTree nodes.old }
    requires long { length nodes.old ≡ length steps.now + length steps.now }
    requires rising { (j : ℕ) → j < length steps.now → 0 < get_or steps.now j 0 }
    requires first { 1 < length nodes.old → t.num * den ≤ get_or nodes.old 1 0 * t.den }
    requires below { 1 < length nodes.old → get_or nodes.old 1 0 * t.den ≡ t.num * den → get_or nodes.old 1 0 < limit }
    ensures tree { IsTree nodes.new }
    ensures long { length nodes.new ≡ length nodes.old }
    ensures leaves { (j : ℕ) → j < length steps.now → leaf_of nodes.new j ≡ passed_key den limit t (leaf_of nodes.old j) (get_or steps.now j 0) }
{
    if nodes.len() > 1 && is_at(nodes[1], den, t) {
        advance(nodes, steps, limit);
    }
}

/// Goes on past the instant that is next.
pub(crate) fn pass(axis: &mut Axis, t: Ratio)
    requires is { IsSound axis.old }
    requires next { ∥ NextIs axis.old.course (Some t) ∥₁ }
    ensures is { IsSound axis.new }
    ensures given { axis.new.course.given ≡ Some (At t) }
    ensures same { IsSameAxis axis.old axis.new }
{
    axis.course.row = row_after(&axis.course, t);
    pass_ticks(
        axis.nodes.as_mut_slice(),
        axis.steps.as_slice(),
        axis.den,
        axis.limit,
        t,
    );
    axis.course.given = Some(Moment::At(t));
}
