//! How many tokens the equations of classes have.
ghost use Rattle.std.specs.Prelude.{◌≡◌, ◌+◌, ℕ, IfOk, length, min, sum_by};
ghost use Rattle.instance_totals.specs.Weights.{number_at};
ghost use Rattle.class_sizes.specs.Equations as counted;
ghost use Rattle.class_sizes.specs.Tokens as sized;

use crate::equations::{clause_count, equations_of};
use class_scopes::File;
use instance_totals::added;
use mo_parser::{TreeEq, TreeExpr};
use source_tokens::Starts;
use std::alloc::{AllocError, Global};

/// How many tokens an expression has in the text.
pub fn expr_tokens(starts: &Starts<'_>, expr: &TreeExpr) -> usize
    ensures { result ≡ sized.expr_tokens starts.now.tokens.now expr.now }
{
    starts.count(expr.span.at, expr.span.end)
}

/// How many tokens the two sides of an equation have with the sign between them, or `most` where they are more.
fn sides_tokens(starts: &Starts<'_>, left: &TreeExpr, right: &TreeExpr, most: usize) -> usize
    ensures { result ≡ min (sized.sides_tokens starts.now.tokens.now left.now right.now) most }
{
    let before = added(expr_tokens(starts, left), 1, most);
    added(before, expr_tokens(starts, right), most)
}

/// How many tokens an equation inside a clause has, or `most` where they are more.
fn inside_tokens(starts: &Starts<'_>, equation: &TreeEq, most: usize) -> usize
    ensures { result ≡ min (sized.inside_tokens starts.now.tokens.now equation.now) most }
{
    match equation {
        TreeEq::Equal(left, right) => sides_tokens(starts, left, right, most),
        TreeEq::Connect(_, _) => 0,
        TreeEq::When(_, _) => 0,
    }
}

/// How many tokens the equations inside a clause have, or `most` where they are more.
fn clause_tokens(starts: &Starts<'_>, inside: &[TreeEq], most: usize) -> usize
    ensures { result ≡ min (sum_by (sized.inside_tokens starts.now.tokens.now) inside.now) most }
{
    let mut count = 0;
    for equation in inside {
        count = added(count, inside_tokens(starts, equation, most), most);
    }
    count
}

/// How many tokens the clock of a clause has; none where the clause has no equation.
fn clock_tokens(starts: &Starts<'_>, clock: &TreeExpr, inside: &[TreeEq]) -> usize
    ensures { result ≡ sized.clock_tokens starts.now.tokens.now clock.now (sum_by counted.inside_equations inside.now) }
{
    if clause_count(inside, 1) == 0 {
        0
    } else {
        expr_tokens(starts, clock)
    }
}

/// How many tokens an equation of a class has, or `most` where they are more; a connect has none.
fn equation_tokens(starts: &Starts<'_>, equation: &TreeEq, most: usize) -> usize
    ensures { result ≡ min (sized.tokens_at starts.now.tokens.now equation.now) most }
{
    match equation {
        TreeEq::Equal(left, right) => sides_tokens(starts, left, right, most),
        TreeEq::Connect(_, _) => 0,
        TreeEq::When(clock, inside) => added(
            clock_tokens(starts, clock, inside.as_slice()),
            clause_tokens(starts, inside.as_slice(), most),
            most,
        ),
    }
}

/// How many tokens several equations of a class have, or `most` where they are more.
fn tokens_of(starts: &Starts<'_>, equations: &[TreeEq], most: usize) -> usize
    ensures { result ≡ min (sum_by (sized.tokens_at starts.now.tokens.now) equations.now) most }
{
    let mut count = 0;
    for equation in equations {
        count = added(count, equation_tokens(starts, equation, most), most);
    }
    count
}

/// For each class of the file how many tokens its own equations have, with the clocks of its clauses, or `most` where they are
/// more. Memory that is refused is the only error.
pub fn token_counts(
    alloc: Global,
    file: &File<'_>,
    starts: &Starts<'_>,
    most: usize,
) -> Result<Vec<usize>, AllocError>
    ensures { IfOk result (λ counts. (class : ℕ) → number_at counts.items class ≡ min (sized.own_tokens file.now.text.now file.now.classes.now starts.now.tokens.now class) most) }
{
    let mut counts = Vec::new(alloc);
    for class in 0..file.classes.len() {
        counts.push(tokens_of(starts, equations_of(file, class), most))?;
    }
    Ok(counts)
}
