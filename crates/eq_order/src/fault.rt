//! Which rule is broken where no equation can reach a name any more.
ghost use Rattle.std.specs.Prelude.{◌==◌, ◌≡◌, ◌≢◌, ℕ, ◌<◌, ◌^◌, ◌↔◌, true, false, not, ◌||◌, length, map, nat_lt, count_by, slice_get, slice_index_or, slice_set, IfOk, MatchOption, Contains, Some, Option};
ghost use Rattle.flat_model.specs.declared.place.Place.TheVariants as place;
ghost use Rattle.flat_model.specs.Uses.{IsUnreached};
ghost use Rattle.eq_order.specs.declared.ends.OrderEnd.TheVariants.{Fault};
ghost use Rattle.flat_model.specs.Setting.{Setting};
ghost use Rattle.eq_order.specs.Order.{IsLeast, use_of};
ghost use Rattle.eq_order.specs.private.Reaching.{is_waiting, list_at, waiting_count};
ghost use Rattle.eq_order.specs.private.Tables.{AreReads, HaveEnded, count_below, EndsAs, IsAtName, is_idle, IsIdle};

use crate::ends::{OrderCode, OrderEnd};
use crate::reaching::waits;
use crate::uses::Use;
use flat_model::{Equation, FlatModel, FlatName, Place};
use std::alloc::{AllocError, Global};
use sync_values::{List, Text};

/// How many of some names are not reached.
fn count_waiting(reached: &[bool], names: &[u32]) -> usize
    ensures { result ≡ count_by (is_waiting reached.now) names.now }
{
    let mut count = 0;
    for name in names {
        if waits(reached, *name) {
            count += 1;
        }
    }
    count
}

/// The first name that is not reached.
fn first_unreached(reached: &[bool]) -> Option<usize>
    ensures { MatchOption result ((x : ℕ) → is_waiting reached.now x ≡ true → ⊥) (IsLeast (λ x. is_waiting reached.now x ≡ true)) }
{
    for x in 0..reached.len() {
        if !reached[x] {
            return Some(x);
        }
    }
    None
}

/// How many names are not reached.
fn count_unreached(reached: &[bool]) -> usize
    ensures { result ≡ count_below (is_waiting reached.now) (length reached.now) }
{
    let mut count = 0;
    for x in 0..reached.len() {
        if !reached[x] {
            count += 1;
        }
    }
    count
}

/// The first equation that reads just one unreached name.
fn first_stuck(reads: &[List<u32>], reached: &[bool]) -> Option<usize>
    ensures { MatchOption result ((i : ℕ) → waiting_count reads.now reached.now i ≡ 1 → ⊥) (IsLeast (λ i. waiting_count reads.now reached.now i ≡ 1)) }
{
    for i in 0..reads.len() {
        if count_waiting(reached, reads[i].as_slice()) == 1 {
            return Some(i);
        }
    }
    None
}

/// The first equation that reads an unreached name.
fn first_reader(reads: &[List<u32>], reached: &[bool]) -> Option<usize>
    ensures { MatchOption result ((i : ℕ) → 0 < waiting_count reads.now reached.now i → ⊥) (IsLeast (λ i. 0 < waiting_count reads.now reached.now i)) }
{
    for i in 0..reads.len() {
        if 0 < count_waiting(reached, reads[i].as_slice()) {
            return Some(i);
        }
    }
    None
}

/// How many equations read an unreached name.
fn count_readers(reads: &[List<u32>], reached: &[bool]) -> usize
    ensures { result ≡ count_below (λ i. not (waiting_count reads.now reached.now i == 0)) (length reads.now) }
{
    let mut count = 0;
    for i in 0..reads.len() {
        if count_waiting(reached, reads[i].as_slice()) != 0 {
            count += 1;
        }
    }
    count
}

/// Sets a flag, where there is one.
fn set_flag(flags: &mut [bool], at: usize)
    ensures { flags.new ≡ slice_set flags.old at true }
{
    if at < flags.len() {
        flags[at] = true;
    }
}

/// For each of some equations whether a use takes it.
fn used_flags(alloc: Global, count: usize, uses: &[Use]) -> Result<Vec<bool>, AllocError>
    ensures { IfOk result (λ used. (i : ℕ) → i < count → (slice_index_or used.items i true ≡ true) ↔ Contains (map (λ entry. entry.equation) uses.now) i) }
{
    let mut used = Vec::from_elem(alloc, false, count)?;
    for entry in uses {
        set_flag(&mut used, entry.equation as usize);
    }
    Ok(used)
}

/// Whether an equation is between values, and its flag is not set.
fn is_idle(equation: &Equation, used: &[bool], i: usize) -> bool
    ensures { result ≡ is_idle equation.now used.now i }
{
    matches!(equation, Equation::Valued { .. }) && !used.get(i).copied().unwrap_or(true)
}

/// The first equation between values that no use takes.
fn first_unused(equations: &[Equation], used: &[bool]) -> Option<usize>
    ensures { MatchOption result ((i : ℕ) → IsIdle equations.now used.now i → ⊥) (IsLeast (IsIdle equations.now used.now)) }
{
    for i in 0..equations.len() {
        if is_idle(&equations[i], used, i) {
            return Some(i);
        }
    }
    None
}

/// The end at an equation.
fn at_equation(code: OrderCode, i: usize) -> OrderEnd
    requires { i < 2 ^ 32 }
    ensures { result ≡ Fault code (place.Equation i) }
{
    OrderEnd::Fault {
        code,
        place: Place::Equation(i as u32),
    }
}

/// The end at a name that no equation reaches.
fn at_name(alloc: Global, names: &[FlatName], x: usize) -> OrderEnd
    requires { x < length names.now }
    ensures { IsAtName names.now x result }
{
    match Text::from_bytes(alloc, names[x].text.as_bytes()) {
        Ok(text) => OrderEnd::Fault {
            code: OrderCode::Q2,
            place: Place::Name(text),
        },
        Err(_) => OrderEnd::NoMemory,
    }
}

/// The broken rule where all names are reached: an equation is left over.
fn check_all_used(alloc: Global, equations: &[Equation], uses: &[Use]) -> Result<(), OrderEnd>
    requires { length equations.now < 2 ^ 32 }
    ensures { (s : Setting) → s.model.equations ≡ equations.now → ((x : ℕ) → IsUnreached s (map use_of uses.now) x → ⊥)
        → EndsAs s (map use_of uses.now) result }
{
    let used = used_flags(alloc, equations.len(), uses)?;
    match first_unused(equations, &used) {
        Some(i) => Err(at_equation(OrderCode::Q1, i)),
        None => Ok(()),
    }
}

/// The broken rule where no equation can reach a name any more, if there is one.
pub(crate) fn check_ended(
    alloc: Global,
    flat: &FlatModel,
    reads: &[List<u32>],
    reached: &[bool],
    uses: &[Use],
) -> Result<(), OrderEnd>
    requires small { length flat.now.equations < 2 ^ 32 }
    requires long { length reads.now ≡ length flat.now.equations }
    requires wide { length reached.now ≡ length flat.now.names }
    ensures { (s : Setting) → s.model ≡ flat.now → AreReads s reads.now → HaveEnded s reached.now (map use_of uses.now)
        → EndsAs s (map use_of uses.now) result }
{
    let Some(name) = first_unreached(reached) else {
        return check_all_used(alloc, flat.equations.as_slice(), uses);
    };
    if let Some(i) = first_stuck(reads, reached) {
        return Err(at_equation(OrderCode::Q3, i));
    }
    if count_readers(reads, reached) < count_unreached(reached) {
        return Err(at_name(alloc, flat.names.as_slice(), name));
    }
    match first_reader(reads, reached) {
        Some(i) => Err(at_equation(OrderCode::Q4, i)),
        None => unreachable!(),
    }
}
