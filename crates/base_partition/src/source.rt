//! Constructors that are not inferred, and the base partitions that have an event constructor and another one.
ghost use Rattle.std.specs.Prelude.{◌≡◌, ℕ, List, length, IfOk, [], ◌∷◌, ◌++◌};
ghost use Rattle.clock_terms.specs.declared.data.Constructor.{Constructor};
ghost use Rattle.clock_terms.specs.Source.{kind_of};
ghost use Rattle.base_partition.specs.Classified.{gives_clock, gives_site};
ghost use Rattle.base_partition.specs.private.Sources.{no_sources, with_source, AreKept, mixed_in, lesser_of, IsLeastOf, IsFirstMixed};

use crate::member::{flag_in, number_in};
use clock_terms::{Classes, Constructor};
use flat_model::ClockExpr;
use std::alloc::{AllocError, Global};

/// Of the constructors of a base partition that are not inferred: whether there is one, the equation of the second,
/// and whether one is an event constructor.
#[derive(Clone, Copy)]
pub(crate) struct Sources {
    any: bool,
    second: Option<u32>,
    at_site: bool,
}

impl Sources {
    fn none() -> Sources
        ensures { result ≡ no_sources }
    {
        Sources {
            any: false,
            second: None,
            at_site: false,
        }
    }

    /// With one more.
    fn with(self, equation: u32, event: bool) -> Sources
        ensures { result ≡ with_source self equation event }
    {
        let second = match self.second {
            Some(second) => Some(second),
            None => { if self.any { Some(equation) } else { None } }
        };
        Sources {
            any: true,
            second,
            at_site: self.at_site || event,
        }
    }

    /// The equation of the second, where one is an event constructor.
    fn mixed(self) -> Option<u32>
        ensures { result ≡ mixed_in self }
    {
        if self.at_site { self.second } else { None }
    }
}

#[tactic(auto, using(clock_terms::proofs::ClockKinds::clock_kinds))]
fn is_source(clock: &ClockExpr) -> bool
    ensures { result ≡ gives_clock (kind_of clock.now) }
{
    match clock {
        ClockExpr::Rational(_, _) => true,
        ClockExpr::Event(_) => true,
        ClockExpr::Name(_) => false,
        ClockExpr::Inferred => false,
        ClockExpr::Convert(_, _) => false,
    }
}

#[tactic(auto, using(clock_terms::proofs::ClockKinds::clock_kinds))]
fn is_event(clock: &ClockExpr) -> bool
    ensures { result ≡ gives_site (kind_of clock.now) }
{
    match clock {
        ClockExpr::Event(_) => true,
        ClockExpr::Rational(_, _) => false,
        ClockExpr::Name(_) => false,
        ClockExpr::Inferred => false,
        ClockExpr::Convert(_, _) => false,
    }
}

/// Adds a constructor to its base partition.
fn note(bases: &mut [Sources], classes: &Classes, constructor: &Constructor)
    ensures length { length bases.new ≡ length bases.old }
    ensures kept { (before : List Constructor) → AreKept classes.now before bases.old → AreKept classes.now (before ++ constructor.now ∷ []) bases.new }
{
    let class = number_in(classes.class_of.as_slice(), constructor.node);
    if !is_source(&constructor.clock) || !flag_in(classes.clocked.as_slice(), class) {
        return;
    }
    let partition = number_in(classes.partition.as_slice(), class) as usize;
    if partition < bases.len() {
        let event = is_event(&constructor.clock);
        bases[partition] = bases[partition].with(constructor.equation, event);
    }
}

fn note_all(bases: &mut [Sources], classes: &Classes, constructors: &[Constructor])
    requires { AreKept classes.now [] bases.old }
    ensures length { length bases.new ≡ length bases.old }
    ensures kept { AreKept classes.now constructors.now bases.new }
{
    for constructor in constructors {
        note(bases, classes, constructor);
    }
}

/// The lesser, where there are two.
fn lesser(first: Option<u32>, second: Option<u32>) -> Option<u32>
    ensures { result ≡ lesser_of first second }
{
    match (first, second) {
        (Some(first), Some(second)) if second < first => Some(second),
        (Some(first), _) => Some(first),
        (None, second) => second,
    }
}

fn least(bases: &[Sources]) -> Option<u32>
    ensures { IsLeastOf bases.now result }
{
    let mut found = None;
    for base in bases {
        found = lesser(found, base.mixed());
    }
    found
}

fn least_noted(
    bases: &mut [Sources],
    classes: &Classes,
    constructors: &[Constructor],
) -> Option<u32>
    requires { AreKept classes.now [] bases.old }
    ensures { IsFirstMixed classes.now constructors.now (length bases.old) result }
{
    note_all(bases, classes, constructors);
    least(bases)
}

/// The least equation of the second constructor of a base partition that has an event constructor and another one.
pub(crate) fn mixed_base(
    alloc: Global,
    classes: &Classes,
    count: usize,
    constructors: &[Constructor],
) -> Result<Option<u32>, AllocError>
    ensures { IfOk result (IsFirstMixed classes.now constructors.now count) }
{
    let mut bases = vec![in alloc; Sources::none(); count]?;
    Ok(least_noted(&mut bases, classes, constructors))
}
