//! Nodes: equations, and the parts that are cut from them.
ghost use Rattle.std.specs.Prelude.{◌≡◌, ◌+◌, ◌<◌, length, List, IfOk, OnOk, Some, None, [], ◌∷◌, ◌++◌};
ghost use Rattle.clock_terms.specs.declared.data.Terms.{Terms};
ghost use Rattle.clock_terms.specs.Gathered.{with_place, with_clause, with_cause, with_entry, next_number, lead_from, IsClauseBelow};
ghost use Rattle.clock_terms.specs.private.Leads.{AreLeads, leads_with};

use crate::data::{Cause, NodeOf, Terms};
use crate::walk::At;
use flat_model::FlatName;
use mo_connect::Pair;
use std::alloc::AllocError;

/// The number of the next node. One that does not fit counts as no memory.
fn next_at(terms: &Terms, names: &[FlatName], equation: u32) -> Result<At, AllocError>
    ensures node { IfOk result (λ at. at.node ≡ next_number names.now terms.now) }
    ensures equation { IfOk result (λ at. at.equation ≡ equation) }
{
    let Some(sum) = names.len().checked_add(terms.nodes.len()) else {
        return Err(AllocError);
    };
    let Ok(node) = u32::try_from(sum) else {
        return Err(AllocError);
    };
    Ok(At { node, equation })
}

/// The node of a part that is cut.
pub(crate) fn cut_node(
    terms: &mut Terms,
    names: &[FlatName],
    equation: u32,
    cause: Cause,
) -> Result<At, AllocError>
    ensures node { IfOk result (λ at. at.node ≡ next_number names.now terms.old) }
    ensures equation { IfOk result (λ at. at.equation ≡ equation) }
    ensures terms { OnOk result (terms.new ≡ with_place names.now equation (Some cause) None terms.old) }
{
    let at = next_at(terms, names, equation)?;
    terms.unclocked.push(at.node)?;
    terms.nodes.push(NodeOf {
        equation,
        cause: Some(cause),
        clause: None,
    })?;
    Ok(at)
}

/// What an equation of a clause adds: its mark, and a join to the first equation of the clause.
fn lead(
    terms: &mut Terms,
    names: &[FlatName],
    leads: &mut [Option<u32>],
    at: At,
    clause: Option<u32>,
) -> Result<(), AllocError>
    requires below { IsClauseBelow (length leads.old) clause }
    requires leads { AreLeads names.now terms.old.nodes leads.old }
    ensures terms { OnOk result (terms.new ≡ with_clause (length names.now) at.node clause terms.old) }
    ensures leads { leads.new ≡ leads_with leads.old at.node clause }
{
    let Some(clause) = clause else {
        return Ok(());
    };
    match leads[clause as usize] {
        Some(first) => {
            terms.joins.push(Pair {
                a: first,
                b: at.node,
            })?;
        }
        None => leads[clause as usize] = Some(at.node),
    }
    terms.clocked.push(at.node)
}

/// The node of an equation.
pub(crate) fn own_node(
    terms: &mut Terms,
    names: &[FlatName],
    leads: &mut [Option<u32>],
    equation: u32,
    clause: Option<u32>,
) -> Result<At, AllocError>
    requires below { IsClauseBelow (length leads.old) clause }
    requires leads { AreLeads names.now terms.old.nodes leads.old }
    ensures node { IfOk result (λ at. at.node ≡ next_number names.now terms.old) }
    ensures equation { IfOk result (λ at. at.equation ≡ equation) }
    ensures terms { OnOk result (terms.new ≡ with_place names.now equation None clause terms.old) }
    ensures with { OnOk result (leads.new ≡ leads_with leads.old (next_number names.now terms.old) clause) }
    ensures leads { OnOk result (AreLeads names.now terms.new.nodes leads.new) }
{
    let at = next_at(terms, names, equation)?;
    lead(terms, names, leads, at, clause)?;
    terms.nodes.push(NodeOf {
        equation,
        cause: None,
        clause,
    })?;
    Ok(at)
}
