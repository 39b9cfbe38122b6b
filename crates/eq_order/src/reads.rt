//! The names that equations read now.
ghost use Rattle.std.specs.Prelude.{◌≡◌, ℕ, ◌<◌, ◌↔◌, ◌⊎◌, ◌^◌, true, map, length, IfOk, OnOk, Contains};
ghost use Rattle.std.specs.List.Sorted.{IsStrictlyIncreasing};
ghost use Rattle.flat_model.specs.Runnable.{AreClocks};
ghost use Rattle.flat_model.specs.Setting.{Setting, class_of_name};
ghost use Rattle.flat_model.specs.Uses.{ClassesMeet};
ghost use Rattle.eq_order.specs.private.Reaching.{is_waiting, waiting};
ghost use Rattle.eq_order.specs.private.Tables.{AreReads, IsRow, is_known};

use crate::clocks::{class_at, classes_meet};
use crate::reaching::waits;
use eq_orient::{Manner, gather};
use flat_model::{Clocking, Equation, Expr, FlatModel, FlatName, NameKind};
use std::alloc::{AllocError, Global};
use sync_values::List;

/// Puts numbers in order, each once.
fn put_in_order(names: &mut Vec<u32>)
    ensures same { (x : ℕ) → Contains names.new.items x ↔ Contains names.old.items x }
    ensures rising { IsStrictlyIncreasing names.new.items }
{
    names.sort_unstable();
    names.dedup();
}

/// Adds the names whose clock shares an instant with that of a class, of those that no equation has reached.
fn add_meeting(
    names: &mut Vec<u32>,
    converted: &[u32],
    reached: &[bool],
    clocking: &Clocking,
    class: Option<u32>,
) -> Result<(), AllocError>
    requires { AreClocks clocking.now }
    ensures { OnOk result ((s : Setting) → s.clocking ≡ clocking.now → (x : ℕ) →
        Contains names.new.items x ↔ (Contains names.old.items x ⊎ (Contains converted.now x × (is_waiting reached.now x ≡ true) × ClassesMeet s class (class_of_name s x)))) }
{
    for name in converted {
        if waits(reached, *name) {
            let other = class_at(clocking.of_name.as_slice(), *name);
            if classes_meet(clocking, class, other) {
                names.push(*name)?;
            }
        }
    }
    Ok(())
}

/// Those of some names that are not reached.
fn unreached(alloc: Global, names: &[u32], reached: &[bool]) -> Result<List<u32>, AllocError>
    ensures { IfOk result (λ list. list ≡ waiting reached.now names.now) }
{
    let mut list = List::new(alloc);
    for name in names {
        if waits(reached, *name) {
            list.push(*name)?;
        }
    }
    Ok(list)
}

/// The names that an equation of a class reads now, of those that are not reached from the start; they rise.
fn row(
    alloc: Global,
    equation: &Equation,
    reached: &[bool],
    clocking: &Clocking,
    class: Option<u32>,
) -> Result<List<u32>, AllocError>
    requires { AreClocks clocking.now }
    ensures { IfOk result (IsRow clocking.now reached.now class equation.now) }
{
    let Equation::Valued { left, right, .. } = equation else {
        return Ok(List::new(alloc));
    };
    let mut converted = Vec::new(alloc);
    gather(left, Manner::Converted, &mut converted)?;
    gather(right, Manner::Converted, &mut converted)?;
    put_in_order(&mut converted);
    let mut names = Vec::new(alloc);
    gather(left, Manner::Bare, &mut names)?;
    gather(right, Manner::Bare, &mut names)?;
    gather(left, Manner::Held, &mut names)?;
    gather(right, Manner::Held, &mut names)?;
    add_meeting(&mut names, &converted, reached, clocking, class)?;
    put_in_order(&mut names);
    unreached(alloc, &names, reached)
}

/// For each name whether it needs no equation, since it is an input or a Clock.
pub(crate) fn known_names(alloc: Global, names: &[FlatName]) -> Result<Vec<bool>, AllocError>
    ensures { IfOk result (λ known. known.items ≡ map is_known names.now) }
{
    let mut known = Vec::with_capacity(alloc, names.len())?;
    for name in names {
        known.push(name.input || matches!(name.kind, NameKind::Clock))?;
    }
    Ok(known)
}

/// For each equation the names that it reads now, of those that need an equation; they rise.
pub(crate) fn reads(
    alloc: Global,
    flat: &FlatModel,
    clocking: &Clocking,
    known: &[bool],
) -> Result<Vec<List<u32>>, AllocError>
    requires known { known.now ≡ map is_known flat.now.names }
    requires small { length flat.now.equations < 2 ^ 32 }
    requires clocks { AreClocks clocking.now }
    ensures long { IfOk result (λ reads. length reads.items ≡ length flat.now.equations) }
    ensures reads { IfOk result (λ reads. (s : Setting) → s.model ≡ flat.now → s.clocking ≡ clocking.now → AreReads s reads.items) }
{
    let mut reads = Vec::with_capacity(alloc, flat.equations.len())?;
    for i in 0..flat.equations.len() {
        let class = class_at(clocking.of_equation.as_slice(), i as u32);
        let equation = &flat.equations.as_slice()[i];
        reads.push(row(alloc, equation, known, clocking, class)?)?;
    }
    Ok(reads)
}
