//! How many equations the classes have.
ghost use Rattle.std.specs.Prelude.{◌≡◌, ℕ, IfOk, length, min, sum_by};
ghost use Rattle.class_scopes.specs.Types.{class_equations};
ghost use Rattle.instance_totals.specs.Weights.{number_at};
ghost use Rattle.class_sizes.specs.Equations as counted;

use class_scopes::File;
use instance_totals::added;
use mo_parser::TreeEq;
use std::alloc::{AllocError, Global};

/// The equations of a class.
pub fn equations_of<'a>(file: &File<'a>, class: usize) -> &'a [TreeEq]
    ensures { result.now ≡ class_equations file.now.text.now file.now.classes.now class }
{
    match file.classes.get(class) {
        Some(definition) => definition.equations.as_slice(),
        None => &[],
    }
}

/// How many equations an equation inside a clause is.
fn inside_count(equation: &TreeEq) -> usize
    ensures { result ≡ counted.inside_equations equation.now }
{
    match equation {
        TreeEq::Equal(_, _) => 1,
        TreeEq::Connect(_, _) => 0,
        TreeEq::When(_, _) => 0,
    }
}

/// How many equations stand inside a clause, or `most` where they are more.
pub fn clause_count(inside: &[TreeEq], most: usize) -> usize
    ensures { result ≡ min (sum_by counted.inside_equations inside.now) most }
{
    let mut count = 0;
    for equation in inside {
        count = added(count, inside_count(equation), most);
    }
    count
}

/// How many equations an equation of a class stands for, or `most` where they are more.
fn equation_count(equation: &TreeEq, most: usize) -> usize
    ensures { result ≡ min (counted.equations_at equation.now) most }
{
    match equation {
        TreeEq::Equal(_, _) => most.min(1),
        TreeEq::Connect(_, _) => 0,
        TreeEq::When(_, inside) => clause_count(inside.as_slice(), most),
    }
}

/// How many equations several equations of a class stand for, or `most` where they are more.
fn count_of(equations: &[TreeEq], most: usize) -> usize
    ensures { result ≡ min (sum_by counted.equations_at equations.now) most }
{
    let mut count = 0;
    for equation in equations {
        count = added(count, equation_count(equation, most), most);
    }
    count
}

/// For each class of the file how many equations it has of its own, those of clauses among them and connects not, or `most`
/// where they are more. Memory that is refused is the only error.
pub fn equation_counts(
    alloc: Global,
    file: &File<'_>,
    most: usize,
) -> Result<Vec<usize>, AllocError>
    ensures size { IfOk result (λ counts. length counts.items ≡ length file.now.classes.now) }
    ensures counts { IfOk result (λ counts. (class : ℕ) → number_at counts.items class ≡ min (counted.own_equations file.now.text.now file.now.classes.now class) most) }
{
    let mut counts = Vec::new(alloc);
    for class in 0..file.classes.len() {
        counts.push(count_of(equations_of(file, class), most))?;
    }
    Ok(counts)
}
