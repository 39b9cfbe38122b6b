ghost use Rattle.std.specs.Prelude.{◌≡◌, ◌≢◌, ◌<◌, ◌≤◌, ◌^◌, true, [], ◌∷◌, length};
ghost use Rattle.std.specs.Int.{◌∣◌};
ghost use Rattle.rational_time.specs.Fraction.{ArePartsBelow};
ghost use Rattle.rational_time.specs.Multiple.{AllDivide};
ghost use Rattle.flat_model.specs.Models.{IsModel, IsName};
ghost use Rattle.flat_model.specs.Runnable.{AreClocks, CanRun, denominators};
ghost use Rattle.flat_model.specs.Tables.{IsTableOf, IsTime};

use flat_model::{Clock, Clocking, Expr, FlatModel, FlatName, NameKind, Table};
use input_table::{no_table, read_table};
use rational_time::{Ratio, make};
use std::alloc::Global;
use std::process::Abort;
use sync_values::{List, Text, Value};

/// A numerator and a denominator.
pub(crate) type Parts = (u64, u64);

/// The clock of a class: a period and a start in seconds, or a site, a factor and a shift.
#[derive(Clone, Copy)]
pub(crate) enum Form {
    Every(Parts, Parts),
    Risings(u32, u64, u64),
}

fn name(rt: &impl Abort, alloc: Global, text: &[u8], input: bool) -> FlatName
    requires { length text.now ≤ 100 }
    ensures name { IsName result }
    ensures text { result.text ≡ text.now }
{
    FlatName {
        text: Text::from_bytes(alloc, text).expect(rt, "memory"),
        kind: NameKind::Integer,
        input,
        start: Value::Int(0),
    }
}

/// The model of two names, without equations.
fn model_of(rt: &impl Abort, alloc: Global, first: FlatName, second: FlatName) -> FlatModel
    requires first { IsName first }
    requires second { IsName second }
    requires apart { first.text ≢ second.text }
    ensures { IsModel result }
{
    let mut names = List::new(alloc);
    names.push(first).expect(rt, "memory");
    names.push(second).expect(rt, "memory");
    FlatModel {
        names,
        equations: List::new(alloc),
        clauses: List::new(alloc),
    }
}

/// A model of `u` and `y`, of which `u` may be an input.
fn model(rt: &impl Abort, alloc: Global, input: bool) -> FlatModel
    ensures { IsModel result }
{
    let first = name(rt, alloc, b"u", input);
    let second = name(rt, alloc, b"y", false);
    model_of(rt, alloc, first, second)
}

/// The table of the bytes of a file, or that of no file where there are none.
fn table(rt: &impl Abort, alloc: Global, flat: &FlatModel, bytes: &[u8]) -> Table
    requires { IsModel flat.now }
    ensures { IsTableOf flat.now result }
{
    if bytes.is_empty() {
        return no_table(alloc, flat).expect(rt, "a table");
    }
    assert!(rt; bytes.len() <= 16_777_216);
    read_table(alloc, flat, bytes).expect(rt, "a table")
}

/// A fraction.
fn ratio(rt: &impl Abort, parts: Parts) -> Ratio {
    assert!(rt; parts.1 > 0);
    make(parts.0, parts.1)
}

/// An instant that a run may stop at.
fn instant(rt: &impl Abort, parts: Parts) -> Ratio
    ensures { IsTime result }
{
    let at = ratio(rt, parts);
    assert!(rt; u128::from(at.num()) < u128::from(at.den()) << 20);
    assert!(rt; at.den() < 1 << 32);
    at
}

fn clock(rt: &impl Abort, form: Form) -> Clock {
    match form {
        Form::Every(period, start) => Clock::Periodic {
            period: ratio(rt, period),
            start: ratio(rt, start),
        },
        Form::Risings(site, factor, shift) => Clock::Event {
            site,
            factor,
            shift,
        },
    }
}

/// The clocking of a class for each of these clocks, and of two sites.
fn clocking_of(rt: &impl Abort, alloc: Global, forms: &[Form]) -> Clocking
    ensures { length result.sites ≡ 2 }
{
    let mut clocks = List::new(alloc);
    for form in forms {
        clocks.push(clock(rt, *form)).expect(rt, "memory");
    }
    let mut sites = List::new(alloc);
    sites
        .push(Expr::Const(Value::Bool(true)))
        .expect(rt, "memory");
    sites
        .push(Expr::Const(Value::Bool(false)))
        .expect(rt, "memory");
    Clocking {
        of_name: List::new(alloc),
        of_equation: List::new(alloc),
        clocks,
        partitions: List::new(alloc),
        sites,
    }
}

fn is_on(value: Ratio, grid: u64) -> bool
    requires { 0 < grid }
    ensures { result ≡ true → ArePartsBelow (2 ^ 40) value × (value.den ∣ grid) }
{
    value.num() < 1 << 40 && value.den() < 1 << 40 && grid % value.den() == 0
}

fn can_run(sites: &[Expr], clock: Clock, grid: u64) -> bool
    requires { 0 < grid }
    ensures { result ≡ true → CanRun sites.now clock × AllDivide (denominators (clock ∷ [])) grid }
{
    match clock {
        Clock::Periodic { period, start } => 0 < period.num()
            && is_on(period, grid)
            && is_on(start, grid),
        Clock::Event {
            site,
            factor,
            shift,
        } => (site as usize) < sites.len() && 0 < factor && factor < 1000 && shift < 1000,
    }
}

fn are_clocks(clocking: &Clocking, grid: u64) -> bool
    requires some { 0 < grid }
    requires small { grid < 2 ^ 40 }
    ensures { result ≡ true → AreClocks clocking.now }
{
    for clock in clocking.clocks.as_slice() {
        if !can_run(clocking.sites.as_slice(), *clock, grid) {
            return false;
        }
    }
    true
}

/// The clocking of a class for each of these clocks, and of two sites. The grid is a common denominator of the clocks.
fn clocking(rt: &impl Abort, alloc: Global, forms: &[Form], grid: u64) -> Clocking
    ensures clocks { AreClocks result }
    ensures sites { length result.sites ≡ 2 }
{
    let clocking = clocking_of(rt, alloc, forms);
    assert!(rt; grid > 0);
    assert!(rt; grid < 1 << 40);
    assert!(rt; are_clocks(&clocking, grid));
    clocking
}

/// What a plan is made of: a model, a table of it, a clocking over two sites, and a stop.
#[derive(Drop)]
pub(crate) struct Given {
    pub(crate) flat: FlatModel,
    pub(crate) table: Table,
    pub(crate) clocking: Clocking,
    pub(crate) stop: Ratio,
}

/// The model, table, clocking and stop of a case.
pub(crate) fn case_given(
    rt: &impl Abort,
    alloc: Global,
    bytes: &[u8],
    forms: &[Form],
    grid: u64,
    stop: Parts,
) -> Given
    ensures table { IsTableOf result.flat result.table }
    ensures clocks { AreClocks result.clocking }
    ensures sites { length result.clocking.sites ≡ 2 }
    ensures stop { IsTime result.stop }
{
    let flat = model(rt, alloc, !bytes.is_empty());
    let table = table(rt, alloc, &flat, bytes);
    let clocking = clocking(rt, alloc, forms, grid);
    let stop = instant(rt, stop);
    Given {
        flat,
        table,
        clocking,
        stop,
    }
}
