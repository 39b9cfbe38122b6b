//! Typed models.
ghost use Rattle.std.specs.Prelude.{◌≡◌, ◌<◌, ◌^◌, IfOk, map, length};
ghost use Rattle.flat_model.specs.RawModels.{AreClausesUsed};
ghost use Rattle.flat_types.specs.Outcomes as outcomes;
ghost use Rattle.flat_types.specs.Typed as spec;
ghost use Rattle.flat_types.specs.private.Checked as checked;

use crate::ends::{TypeCode, TypeEnd};
use crate::named::type_of_part;
use crate::operators::{either_broken, is_type};
use crate::outcome::Outcome;
use crate::reader::Reader;
use flat_model::{
    ClockExpr, Equation, Expr, FlatModel, FlatName, NameKind, RawEq, RawExpr, RawModel,
};
use std::alloc::{AllocError, Global};
use sync_values::{List, Text};

/// The same names once more.
fn copied_names(alloc: Global, names: &[FlatName]) -> Result<List<FlatName>, AllocError>
    ensures { IfOk result (λ copies. copies ≡ names.now) }
{
    let mut copies = List::new(alloc);
    for name in names {
        let text = Text::from_bytes(alloc, name.text.as_bytes())?;
        copies.push(FlatName {
            text,
            kind: name.kind,
            input: name.input,
            start: name.start,
        })?;
    }
    Ok(copies)
}

/// A part that breaks no rule as a clock.
fn clock_of(names: &[FlatName], part: Outcome) -> Result<ClockExpr, TypeCode>
    ensures { result ≡ spec.clock_by part (outcomes.as_clock names.now part) }
{
    if let Outcome::Broken(code) = &part {
        return Err(*code);
    }
    part.into_clock(names).ok_or(TypeCode::Y1)
}

/// Two values of one type.
fn values(
    clause: Option<u32>,
    left: Option<(Expr, NameKind)>,
    right: Option<(Expr, NameKind)>,
) -> Result<Equation, TypeCode>
    ensures { result ≡ spec.values_by clause left right }
{
    let ((left, kind), (right, other)) = left.zip(right).ok_or(TypeCode::Y1)?;
    let equation = Equation::Valued {
        left,
        right,
        clause,
    };
    is_type(kind, Some(other))
        .then_some(equation)
        .ok_or(TypeCode::Y1)
}

/// Two clocks.
fn clocks(
    clause: Option<u32>,
    left: Option<ClockExpr>,
    right: Option<ClockExpr>,
) -> Result<Equation, TypeCode>
    ensures { result ≡ spec.clocks_by clause left right }
{
    let (left, right) = left.zip(right).ok_or(TypeCode::Y1)?;
    Ok(Equation::Clocks {
        left,
        right,
        clause,
    })
}

/// An equation of two sides that are read.
fn equation_of(
    names: &[FlatName],
    clause: Option<u32>,
    left: Outcome,
    right: Outcome,
) -> Result<Equation, TypeCode>
    ensures { result ≡ spec.equation_by names.now clause left right }
{
    if let Some(code) = either_broken(&left, &right) {
        return Err(code);
    }
    if type_of_part(names, &left).is_none() && type_of_part(names, &right).is_none() {
        clocks(clause, left.into_clock(names), right.into_clock(names))
    } else {
        values(clause, left.into_value(names), right.into_value(names))
    }
}

/// The rule that the clock of an equation's clause breaks.
fn clause_code(clocks: &[Result<ClockExpr, TypeCode>], clause: Option<u32>) -> Option<TypeCode>
    ensures { result ≡ checked.clause_code clocks.now clause }
{
    match clocks.get(clause? as usize) {
        Some(Err(code)) => Some(*code),
        _ => None,
    }
}

impl<'a> Reader<'a> {
    /// The clock of a clause.
    fn clause_clock(&self, raw: &RawExpr) -> Result<Result<ClockExpr, TypeCode>, AllocError>
        ensures { IfOk result (λ clock. clock ≡ spec.clause_clock self.now.names.now raw.now) }
    {
        if self.gives_boolean(raw)? {
            return Ok(Err(TypeCode::Y5));
        }
        let found = self.read(raw)?;
        Ok(clock_of(self.names, found))
    }

    /// The clocks of all clauses.
    fn clause_clocks(
        &self,
        clauses: &[RawExpr],
    ) -> Result<List<Result<ClockExpr, TypeCode>>, AllocError>
        ensures { IfOk result (λ clocks. clocks ≡ map (spec.clause_clock self.now.names.now) clauses.now) }
    {
        let mut clocks = List::new(self.alloc);
        for clause in clauses {
            clocks.push(self.clause_clock(clause)?)?;
        }
        Ok(clocks)
    }

    /// An equation by itself.
    fn equation(&self, raw: &RawEq) -> Result<Result<Equation, TypeCode>, AllocError>
        ensures { IfOk result (λ equation. equation ≡ spec.equation_of self.now.names.now raw.now) }
    {
        let left = self.read(&raw.left)?;
        let right = self.read(&raw.right)?;
        Ok(equation_of(self.names, raw.clause, left, right))
    }

    /// An equation behind the clock of its clause.
    fn checked(
        &self,
        clocks: &[Result<ClockExpr, TypeCode>],
        raw: &RawEq,
    ) -> Result<Result<Equation, TypeCode>, AllocError>
        ensures { IfOk result (λ equation. equation ≡ checked.checked self.now.names.now clocks.now raw.now) }
    {
        match clause_code(clocks, raw.clause) {
            Some(code) => Ok(Err(code)),
            None => self.equation(raw),
        }
    }

    /// All equations, or the first that breaks a rule.
    fn equations(
        &self,
        clocks: &[Result<ClockExpr, TypeCode>],
        equations: &[RawEq],
    ) -> Result<List<Equation>, TypeEnd>
        requires { length equations.now < 2 ^ 32 }
        ensures { checked.AreChecked self.now.names.now clocks.now equations.now result }
    {
        let mut found = List::new(self.alloc);
        for (i, raw) in equations.iter().enumerate() {
            match self.checked(clocks, raw)? {
                Ok(equation) => found.push(equation)?,
                Err(code) => {
                    return Err(TypeEnd::Fault {
                        code,
                        equation: i as u32,
                    });
                }
            }
        }
        Ok(found)
    }
}

/// The clocks of all clauses, where none breaks a rule.
fn all_clocks(
    alloc: Global,
    clocks: List<Result<ClockExpr, TypeCode>>,
) -> Result<List<ClockExpr>, AllocError>
    requires { checked.AreClocks clocks }
    ensures { IfOk result (λ found. clocks ≡ map (λ clock. Ok clock) found) }
{
    let mut found = List::new(alloc);
    for clock in clocks.into_vec() {
        match clock {
            Ok(clock) => found.push(clock)?,
            Err(_) => unreachable!(),
        }
    }
    Ok(found)
}

/// The typed model of a raw one, or the first equation that breaks a rule of types, with the first rule that it breaks:
/// by equation, then by node, each node behind its parts, and at one node in the order Y3, Y5, Y2, Y4, Y1. The clock of
/// a clause is a node of the first equation of the clause.
///
/// # Errors
///
/// `Fault` exactly where a rule is broken, and `NoMemory`.
///
/// Source: MLS 3.6, chapter 3, "Operators and Expressions", and chapter 16, "Synchronous Language Elements", in this
/// project's profile.
pub fn typed(alloc: Global, raw: &RawModel) -> Result<FlatModel, TypeEnd>
    requires few { length raw.now.equations < 2 ^ 32 }
    requires used { AreClausesUsed raw.now }
    ensures { spec.Answers raw.now result }
{
    let reader = Reader {
        alloc,
        names: raw.names.as_slice(),
    };
    let clocks = reader.clause_clocks(raw.clauses.as_slice())?;
    let equations = reader.equations(clocks.as_slice(), raw.equations.as_slice())?;
    let clauses = all_clocks(alloc, clocks)?;
    let names = copied_names(alloc, raw.names.as_slice())?;
    Ok(FlatModel {
        names,
        equations,
        clauses,
    })
}
