//! How clocks spread from class to class over given relations.
ghost use Rattle.std.specs.Prelude.{◌≡◌, ℕ, ◌<◌, List, Option, option_map, All, length, IsTrue, true, IfOk, vec_len, filter, slice_index_or, [], OnOk, ◌==◌, ◌||◌, ◌≢◌};
ghost use Rattle.clock_terms.specs.Position.{Progression};
ghost use Rattle.clock_terms.specs.Asked.{converted, inverse, IsGiven};
ghost use Rattle.clock_terms.specs.Clocking.{Held};
ghost use Rattle.clock_spread.specs.Rounds.{is_given, offer, offered};
ghost use Rattle.clock_spread.specs.Found.{IsFineFound, Agrees, Agree, IsExact, NoneLost, class_in, HasEnds, touches, with_relation};

use crate::onward::convert;
use clock_terms::{Grid, Relation};
use flat_model::Conversion;
use std::alloc::{AllocError, Global};
use sync_values::List;

/// What is known of the clock of a class.
#[derive(Clone, Copy)]
pub enum Found {
    Not,
    Kept(Grid),
    /// It has one, with a part that reaches the limit, or made of one that has.
    Lost,
}

/// Whether a conversion gives a clock: its factor is given, and it is not `noClock`.
pub fn is_factor_given(by: Conversion) -> bool
    ensures { result ≡ is_given by }
{
    match by {
        Conversion::Sub(factor) => factor > 0,
        Conversion::Super(factor) => factor > 0,
        Conversion::Shift(_, resolution) => resolution > 0,
        Conversion::Back(_, resolution) => resolution > 0,
        Conversion::NoClock => false,
    }
}

/// The conversion from the result back to the argument.
fn reversed(by: Conversion) -> Conversion
    ensures { result ≡ inverse by }
{
    match by {
        Conversion::Sub(factor) => Conversion::Super(factor),
        Conversion::Super(factor) => Conversion::Sub(factor),
        Conversion::Shift(k, r) => Conversion::Back(k, r),
        Conversion::Back(k, r) => Conversion::Shift(k, r),
        Conversion::NoClock => Conversion::NoClock,
    }
}

/// What a given conversion makes of a clock.
fn onward(found: Found, by: Conversion) -> Found
    requires fine { IsFineFound found }
    requires given { IsGiven by }
    ensures agrees { (o : Option Progression) → Agrees found o → Agrees result (option_map (converted by) o) }
    ensures exact { found ≢ Found.Lost → (o : Option Progression) → Agrees found o → IsExact result (option_map (converted by) o) }
    ensures fine { IsFineFound result }
{
    match found {
        Found::Not => Found::Not,
        Found::Kept(grid) => match convert(grid, by) {
            Some(grid) => Found::Kept(grid),
            None => Found::Lost,
        },
        Found::Lost => Found::Lost,
    }
}

/// What a relation that touches a class gives it.
fn offer_of(found: &[Found], relation: Relation, class_of: &[u32], class: u32) -> Found
    requires ends { HasEnds class_of.now relation }
    requires classes { All (λ c. c < length found.now) class_of.now }
    requires fine { All IsFineFound found.now }
    requires touches { touches (class_in class_of.now) class relation ≡ true }
    ensures agrees { (held : Held) → Agree found.now held → Agrees result (offer (class_in class_of.now) held relation class) }
    ensures exact { NoneLost found.now → (held : Held) → Agree found.now held → IsExact result (offer (class_in class_of.now) held relation class) }
    ensures fine { IsFineFound result }
{
    let result_class = class_of[relation.result as usize];
    let argument_class = class_of[relation.argument as usize];
    if result_class == class {
        onward(found[argument_class as usize], relation.by)
    } else {
        onward(found[result_class as usize], reversed(relation.by))
    }
}

/// What the first relation to a class with a clock gives.
pub(crate) fn take(found: &[Found], touching: &[Relation], class_of: &[u32], class: u32) -> Found
    requires ends { All (HasEnds class_of.now) touching.now }
    requires classes { All (λ c. c < length found.now) class_of.now }
    requires fine { All IsFineFound found.now }
    requires touches { All (λ r. touches (class_in class_of.now) class r ≡ true) touching.now }
    ensures agrees { (held : Held) → Agree found.now held → Agrees result (offered (class_in class_of.now) held touching.now class) }
    ensures exact { NoneLost found.now → (held : Held) → Agree found.now held → IsExact result (offered (class_in class_of.now) held touching.now class) }
    ensures fine { IsFineFound result }
{
    for relation in touching {
        let offer = offer_of(found, *relation, class_of, class);
        if !matches!(offer, Found::Not) {
            return offer;
        }
    }
    Found::Not
}

/// For each class the given relations that touch it, in their order.
pub(crate) fn touching(
    alloc: Global,
    count: u32,
    relations: &[Relation],
    class_of: &[u32],
) -> Result<Vec<List<Relation>>, AllocError>
    requires ends { All (HasEnds class_of.now) relations.now }
    requires classes { All (λ c. c < count) class_of.now }
    ensures length { IfOk result (λ lists. vec_len lists ≡ count) }
    ensures lists { IfOk result (λ lists. (c : ℕ) → c < count → slice_index_or lists.items c [] ≡ filter (touches (class_in class_of.now) c) relations.now) }
{
    let mut lists = Vec::with_capacity(alloc, count as usize)?;
    for _ in 0..count {
        lists.push(List::new(alloc))?;
    }
    for relation in relations {
        if is_factor_given(relation.by) {
            let first = class_of[relation.result as usize];
            let second = class_of[relation.argument as usize];
            note_both(&mut lists, first, second, *relation)?;
        }
    }
    Ok(lists)
}

/// Adds a relation to the list of a class.
fn note(lists: &mut [List<Relation>], class: u32, relation: Relation) -> Result<(), AllocError>
    requires { class < length lists.old }
    ensures length { OnOk result (length lists.new ≡ length lists.old) }
    ensures lists { OnOk result ((c : ℕ) → slice_index_or lists.new c [] ≡ with_relation (class == c) relation (slice_index_or lists.old c [])) }
{
    lists[class as usize].push(relation)
}

/// Adds a relation to the lists of the classes at its ends, once.
fn note_both(
    lists: &mut [List<Relation>],
    first: u32,
    second: u32,
    relation: Relation,
) -> Result<(), AllocError>
    requires first { first < length lists.old }
    requires second { second < length lists.old }
    ensures length { OnOk result (length lists.new ≡ length lists.old) }
    ensures lists { OnOk result ((c : ℕ) → slice_index_or lists.new c [] ≡ with_relation (first == c || second == c) relation (slice_index_or lists.old c [])) }
{
    note(lists, first, relation)?;
    if second == first {
        return Ok(());
    }
    note(lists, second, relation)
}
