//! The parts of a clocking.
ghost use Rattle.std.specs.Prelude.{◌≡◌, ◌<◌, ◌≤◌, ◌+◌, ◌++◌, ◌∷◌, [], ℕ, All, List, length, take, IfOk, OnOk, slice_get, slice_index_or, count_by, true, false};
ghost use Rattle.clock_check.specs.private.Making.{number_of_name, node_numbers, own_number, clock_of_grid, AreClocksOf, AreNumbersOfNames};
ghost use Rattle.clock_check.specs.ClockingOf.{AreSites};
ghost use Rattle.clock_check.specs.private.Making.{AddsSite};

use crate::numbers::number_of_class;
use clock_terms::{Constructor, Grid, NodeOf};
use flat_model::{Clock, ClockExpr, Expr, FlatName, copied_expr};
use std::alloc::{AllocError, Global};
use sync_values::List;

/// The number of the class of a name. An input has none.
fn number_of(name: &FlatName, class: u32, numbers: &[Option<u32>]) -> Option<u32>
    ensures { result ≡ number_of_name name.now (slice_index_or numbers.now class None) }
{
    if name.input {
        return None;
    }
    number_of_class(numbers, class)
}

/// The class of each name.
pub(crate) fn of_name(
    alloc: Global,
    names: &[FlatName],
    class_of: &[u32],
    numbers: &[Option<u32>],
) -> Result<List<Option<u32>>, AllocError>
    requires { length names.now ≤ length class_of.now }
    ensures { IfOk result (AreNumbersOfNames names.now class_of.now numbers.now (length names.now)) }
{
    let mut list = List::new(alloc);
    for (x, name) in names.iter().enumerate() {
        list.push(number_of(name, class_of[x], numbers))?;
    }
    Ok(list)
}

/// Adds the class of an equation. A part that is cut adds none.
fn add(
    list: &mut List<Option<u32>>,
    node: NodeOf,
    class: u32,
    numbers: &[Option<u32>],
) -> Result<(), AllocError>
    ensures { OnOk result (list.new ≡ list.old ++ own_number node (slice_index_or numbers.now class None)) }
{
    match node.cause {
        Some(_) => Ok(()),
        None => list.push(number_of_class(numbers, class)),
    }
}

/// The class of each equation. Nodes are numbered from `first` on.
pub(crate) fn of_equation(
    alloc: Global,
    nodes: &[NodeOf],
    first: usize,
    class_of: &[u32],
    numbers: &[Option<u32>],
) -> Result<List<Option<u32>>, AllocError>
    requires { first + length nodes.now ≤ length class_of.now }
    ensures { IfOk result (λ list. list ≡ node_numbers class_of.now numbers.now first nodes.now) }
{
    let mut list = List::new(alloc);
    for (j, node) in nodes.iter().enumerate() {
        add(&mut list, *node, class_of[first + j], numbers)?;
    }
    Ok(list)
}

/// The base partitions of the clocked classes.
pub(crate) fn partitions(
    alloc: Global,
    clocked: &[bool],
    partition: &[u32],
) -> Result<List<u32>, AllocError>
    requires { length partition.now ≡ length clocked.now }
    ensures length { IfOk result (λ list. length list ≡ count_by (λ b. b) clocked.now) }
    ensures each { IfOk result (λ list. (c : ℕ) → slice_index_or clocked.now c false ≡ true
        → slice_get list (count_by (λ b. b) (take c clocked.now)) ≡ Some (slice_index_or partition.now c 0)) }
{
    let mut list = List::new(alloc);
    for (class, is_clocked) in clocked.iter().enumerate() {
        if *is_clocked {
            list.push(partition[class])?;
        }
    }
    Ok(list)
}

/// The clock of a grid without a flaw.
fn clock_of(grid: Grid) -> Clock
    ensures { result ≡ clock_of_grid grid }
{
    match grid.site {
        Some(site) => Clock::Event {
            site,
            factor: grid.period.num(),
            shift: grid.start.num(),
        },
        None => Clock::Periodic {
            period: grid.period,
            start: grid.start,
        },
    }
}

/// The clocks of the clocked classes.
pub(crate) fn clocks(alloc: Global, grids: &[Grid]) -> Result<List<Clock>, AllocError>
    ensures { IfOk result (λ clocks. AreClocksOf grids.now clocks) }
{
    let mut clocks = List::new(alloc);
    for grid in grids {
        clocks.push(clock_of(*grid))?;
    }
    Ok(clocks)
}

/// Adds the condition of an event constructor. Another one adds none.
fn add_site(
    alloc: Global,
    sites: &mut List<Expr>,
    constructor: &Constructor,
) -> Result<(), AllocError>
    ensures { OnOk result (AddsSite constructor.now sites.old sites.new) }
{
    match &constructor.clock {
        ClockExpr::Event(condition) => {
            sites.push(copied_expr(alloc, condition.get())?)?;
            Ok(())
        }
        ClockExpr::Rational(_, _) => Ok(()),
        ClockExpr::Name(_) => Ok(()),
        ClockExpr::Inferred => Ok(()),
        ClockExpr::Convert(_, _) => Ok(()),
    }
}

/// The conditions of event constructors, in their order.
pub(crate) fn sites(alloc: Global, constructors: &[Constructor]) -> Result<List<Expr>, AllocError>
    ensures { IfOk result (AreSites constructors.now) }
{
    let mut sites = List::new(alloc);
    for constructor in constructors {
        add_site(alloc, &mut sites, constructor)?;
    }
    Ok(sites)
}
