//! The clocks that constructors give.
ghost use Rattle.std.specs.Prelude.{◌≡◌, ◌^◌, ◌<◌, ◌+◌, ℕ, All, List, IfOk, OnOk, MatchOption};
ghost use Rattle.clock_terms.specs.Source.{kind_of, sources_of};
ghost use Rattle.sub_clock_solve.specs.Standing.{IsGivenClock};
ghost use Rattle.sub_clock_solve.specs.private.Given.{AreSources, GivesNone, GivesGrid, IsStep};

use clock_terms::{Constructor, Grid};
use flat_model::ClockExpr;
use rational_time::make;
use std::alloc::{AllocError, Global};

/// A constructor that is not inferred: its node, its equation and its clock.
#[derive(Clone, Copy)]
pub(crate) struct Given {
    pub node: u32,
    pub equation: u32,
    pub grid: Grid,
}

/// The clock of a constructor, with the number of the next site. An inferred one gives none.
fn grid_of(clock: &ClockExpr, site: u32) -> Option<Grid>
    requires { IsGivenClock clock.now }
    ensures { MatchOption result (GivesNone (kind_of clock.now)) (GivesGrid (kind_of clock.now) site) }
{
    match clock {
        ClockExpr::Rational(counter, resolution) => Some(Grid {
            site: None,
            period: make(u64::from(*counter), u64::from(*resolution)),
            start: make(0, 1),
            negative: false,
        }),
        ClockExpr::Event(_) => Some(Grid {
            site: Some(site),
            period: make(1, 1),
            start: make(0, 1),
            negative: false,
        }),
        ClockExpr::Name(_) => None,
        ClockExpr::Inferred => None,
        ClockExpr::Convert(_, _) => None,
    }
}

/// Adds what a constructor gives. The answer is the number of the next site.
fn add(givens: &mut Vec<Given>, constructor: &Constructor, site: u32) -> Result<u32, AllocError>
    requires { IsGivenClock constructor.now.clock }
    ensures { IfOk result (λ next. IsStep constructor.now site givens.old.items next givens.new.items) }
{
    let Some(grid) = grid_of(&constructor.clock, site) else {
        return Ok(site);
    };
    givens.push(Given {
        node: constructor.node,
        equation: constructor.equation,
        grid,
    })?;
    if grid.site.is_none() {
        return Ok(site);
    }
    // A number that does not fit counts as no memory.
    let Some(next) = site.checked_add(1) else {
        return Err(AllocError);
    };
    Ok(next)
}

/// The constructors that are not inferred, in their order.
pub(crate) fn given_clocks(
    alloc: Global,
    constructors: &[Constructor],
) -> Result<Vec<Given>, AllocError>
    requires { All (λ constructor. IsGivenClock constructor.clock) constructors.now }
    ensures { IfOk result (λ givens. AreSources givens.items (sources_of constructors.now)) }
{
    let mut givens = Vec::new(alloc);
    let mut site = 0;
    for constructor in constructors {
        site = add(&mut givens, constructor, site)?;
    }
    Ok(givens)
}
