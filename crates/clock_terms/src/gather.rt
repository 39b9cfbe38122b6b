//! The terms of a model, equation by equation.
ghost use Rattle.std.specs.Prelude.{◌≡◌, ℕ, ◌+◌, ◌<◌, ◌≤◌, length, List, IfOk, OnOk, Some, None, [], ◌∷◌, ◌++◌, vec_len, slice_index_or};
ghost use Rattle.std.specs.Option.{option_copied};
ghost use Rattle.flat_model.specs.declared.equation.Equation.{Equation};
ghost use Rattle.clock_terms.specs.Said.{AreTermsOf};
ghost use Rattle.clock_terms.specs.Mentions.{clock_mentions, clock_cuts};
ghost use Rattle.clock_terms.specs.Nodes.{side_mentions, side_cuts, nodes_of_equation, nodes_from};
ghost use Rattle.flat_model.specs.Models.{clause_of};
ghost use Rattle.clock_terms.specs.Gathered.{with_mentions, with_cuts, with_nodes, next_number, IsClauseBelow, HaveClauses, clock_names, start_of, terms_of};
ghost use Rattle.clock_terms.specs.private.Leads.{clock_at, leads_with, AreLeads, HaveBegun};

use crate::cut::{clock_parts, parts};
use crate::data::Terms;
use crate::node::own_node;
use crate::walk::{At, walk, walk_clock};
use flat_model::{ClockExpr, Equation, FlatModel, FlatName, NameKind};
use std::alloc::{AllocError, Global};
use sync_values::{List, NoMemory};

fn clause_number(equation: &Equation) -> Option<u32>
    ensures { result ≡ clause_of equation.now }
{
    match equation {
        Equation::Valued { clause, .. } => *clause,
        Equation::Clocks { clause, .. } => *clause,
    }
}

/// The clock of the clause, where no equation of it came before.
fn leading<'a>(
    clauses: &'a [ClockExpr],
    leads: &[Option<u32>],
    clause: Option<u32>,
) -> Option<&'a ClockExpr>
    requires { IsClauseBelow (length leads.now) clause }
    ensures { option_copied result ≡ clock_at clauses.now leads.now clause }
{
    let clause = clause?;
    match leads[clause as usize] {
        Some(_) => None,
        None => clauses.get(clause as usize),
    }
}

/// What is cut from the clock of a clause.
fn lead_parts(
    alloc: Global,
    terms: &mut Terms,
    names: &[FlatName],
    equation: u32,
    clock: Option<&ClockExpr>,
) -> Result<(), AllocError>
    ensures { OnOk result (terms.new ≡ with_cuts names.now equation terms.old (clock_cuts (option_copied clock.entry))) }
{
    match clock {
        Some(clock) => clock_parts(alloc, terms, names, equation, clock),
        None => Ok(()),
    }
}

/// What stands uncut in the clock of a clause.
fn lead_walk(
    alloc: Global,
    terms: &mut Terms,
    names: &[FlatName],
    at: At,
    clock: Option<&ClockExpr>,
) -> Result<(), AllocError>
    ensures { OnOk result (terms.new ≡ with_mentions names.now at terms.old (clock_mentions (option_copied clock.entry))) }
{
    match clock {
        Some(clock) => walk_clock(alloc, terms, names, at, clock),
        None => Ok(()),
    }
}

/// What stands uncut on the sides of an equation.
#[tactic(auto, using(crate::proofs::Mentioned::mentions_in_turn))]
fn sides_walk(
    alloc: Global,
    terms: &mut Terms,
    names: &[FlatName],
    at: At,
    equation: &Equation,
) -> Result<(), AllocError>
    ensures { OnOk result (terms.new ≡ with_mentions names.now at terms.old (side_mentions equation.now)) }
{
    match equation {
        Equation::Valued { left, right, .. } => {
            walk(alloc, terms, names, at, left)?;
            walk(alloc, terms, names, at, right)
        }
        Equation::Clocks { left, right, .. } => {
            walk_clock(alloc, terms, names, at, left)?;
            walk_clock(alloc, terms, names, at, right)
        }
    }
}

/// What is cut from the sides of an equation.
#[tactic(auto, using(crate::proofs::Cutting::cuts_in_turn))]
fn side_parts(
    alloc: Global,
    terms: &mut Terms,
    names: &[FlatName],
    number: u32,
    equation: &Equation,
) -> Result<(), AllocError>
    ensures { OnOk result (terms.new ≡ with_cuts names.now number terms.old (side_cuts equation.now)) }
{
    match equation {
        Equation::Valued { left, right, .. } => {
            parts(alloc, terms, names, number, left)?;
            parts(alloc, terms, names, number, right)
        }
        Equation::Clocks { left, right, .. } => {
            clock_parts(alloc, terms, names, number, left)?;
            clock_parts(alloc, terms, names, number, right)
        }
    }
}

/// The nodes of an equation.
fn equation_terms(
    alloc: Global,
    terms: &mut Terms,
    names: &[FlatName],
    clauses: &[ClockExpr],
    leads: &mut [Option<u32>],
    number: u32,
    equation: &Equation,
) -> Result<(), AllocError>
    requires below { IsClauseBelow (length leads.old) (clause_of equation.now) }
    requires leads { AreLeads names.now terms.old.nodes leads.old }
    ensures terms { OnOk result (terms.new ≡ with_nodes names.now terms.old (nodes_of_equation (clock_at clauses.now leads.old (clause_of equation.now)) number equation.now)) }
    ensures leads { OnOk result (AreLeads names.now terms.new.nodes leads.new) }
    ensures length { length leads.new ≡ length leads.old }
    ensures begun { OnOk result ((before : List Equation) → HaveBegun before leads.old → HaveBegun (before ++ equation.now ∷ []) leads.new) }
{
    let clause = clause_number(equation);
    let clock = leading(clauses, leads, clause);
    lead_parts(alloc, terms, names, number, clock)?;
    let at = own_node(terms, names, leads, number, clause)?;
    lead_walk(alloc, terms, names, at, clock)?;
    sides_walk(alloc, terms, names, at, equation)?;
    side_parts(alloc, terms, names, number, equation)
}

fn all_terms(
    alloc: Global,
    terms: &mut Terms,
    names: &[FlatName],
    clauses: &[ClockExpr],
    leads: &mut [Option<u32>],
    equations: &[Equation],
) -> Result<(), AllocError>
    requires below { HaveClauses (length leads.old) equations.now }
    requires leads { AreLeads names.now terms.old.nodes leads.old }
    requires begun { HaveBegun [] leads.old }
    ensures { OnOk result (terms.new ≡ with_nodes names.now terms.old (nodes_from clauses.now [] equations.now)) }
{
    for (i, equation) in equations.iter().enumerate() {
        let Ok(number) = u32::try_from(i) else {
            return Err(AllocError);
        };
        equation_terms(alloc, terms, names, clauses, leads, number, equation)?;
    }
    Ok(())
}

/// The names of kind Clock.
fn clocks_named(alloc: Global, names: &[FlatName]) -> Result<List<u32>, AllocError>
    ensures { IfOk result (λ list. list ≡ clock_names 0 names.now) }
{
    let mut list = List::new(alloc);
    for (i, name) in names.iter().enumerate() {
        let Ok(number) = u32::try_from(i) else {
            return Err(AllocError);
        };
        note(&mut list, number, name)?;
    }
    Ok(list)
}

fn note(list: &mut List<u32>, number: u32, name: &FlatName) -> Result<(), AllocError>
    ensures { OnOk result (list.new ≡ list.old ++ clock_names number (name.now ∷ [])) }
{
    match name.kind {
        NameKind::Clock => list.push(number),
        NameKind::Integer => Ok(()),
        NameKind::Boolean => Ok(()),
    }
}

/// A clause for each of them, without a node.
fn no_leads(alloc: Global, count: usize) -> Result<Vec<Option<u32>>, AllocError>
    ensures length { IfOk result (λ leads. vec_len leads ≡ count) }
    ensures none { IfOk result (λ leads. (c : ℕ) → slice_index_or leads.items c None ≡ None) }
{
    let mut leads = Vec::with_capacity(alloc, count)?;
    for _turn in 0..count {
        leads.push(None)?;
    }
    Ok(leads)
}

/// What the equations of a model say of clocks: which names and nodes are of one class, the marks, the constructors
/// and the relations.
///
/// Source: MLS 3.6, chapter 16, "Clock Partitioning", in this project's profile.
pub fn terms(alloc: Global, flat: &FlatModel) -> Result<Terms, NoMemory>
    requires { HaveClauses (length flat.now.clauses) flat.now.equations }
    ensures said { IfOk result (AreTermsOf flat.now) }
    // The lists stand in the order of the nodes.
    ensures lists { IfOk result (λ terms. terms ≡ terms_of flat.now) }
{
    let names = flat.names.as_slice();
    let mut leads = no_leads(alloc, flat.clauses.len())?;
    let mut terms = Terms {
        nodes: List::new(alloc),
        joins: List::new(alloc),
        clocked: clocks_named(alloc, names)?,
        unclocked: List::new(alloc),
        constructors: List::new(alloc),
        relations: List::new(alloc),
        holds: List::new(alloc),
        conversions: List::new(alloc),
    };
    all_terms(
        alloc,
        &mut terms,
        names,
        flat.clauses.as_slice(),
        leads.as_mut_slice(),
        flat.equations.as_slice(),
    )?;
    Ok(terms)
}
