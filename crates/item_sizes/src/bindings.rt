//! What the binding and the start of a variable count.
ghost use Rattle.std.specs.Prelude.{◌≡◌, ℕ, List, min, option_map};
ghost use Rattle.flat_instances.specs.Kept.{placed_in};
ghost use Rattle.parameter_values.specs.Values as values;
ghost use Rattle.item_sizes.specs.Items as counts;

use class_sizes::expr_tokens;
use flat_instances::Given;
use instance_totals::added;
use mo_parser::Variability;
use source_tokens::Starts;

/// Whether a component is a parameter or constant.
pub fn is_fixed(variability: Variability) -> bool
    ensures { result ≡ values.is_fixed variability }
{
    match variability {
        Variability::Plain => false,
        Variability::Parameter => true,
        Variability::Constant => true,
    }
}

/// How many equations what is given to a variable is.
fn given_equations(given: Option<Given<'_>>) -> usize
    ensures { (name : List ℕ) → result ≡ counts.given_equations (option_map (placed_in name) given.entry) }
{
    match given {
        Some(_) => 1,
        None => 0,
    }
}

/// How many equations a binding is: one, or none of a parameter or constant.
pub fn binding_equations(fixed: bool, binding: Option<Given<'_>>) -> usize
    ensures { (name : List ℕ) → result ≡ counts.binding_equations fixed (option_map (placed_in name) binding.entry) }
{
    if fixed { 0 } else { given_equations(binding) }
}

/// How many tokens what is given to a variable has.
pub fn given_tokens(starts: &Starts<'_>, given: Option<Given<'_>>) -> usize
    ensures { (name : List ℕ) → result ≡ counts.given_tokens starts.now.tokens.now (option_map (placed_in name) given.entry) }
{
    match given {
        Some(given) => expr_tokens(starts, given.expr),
        None => 0,
    }
}

/// How many tokens a binding has that is an equation, with the name and the sign before it, or `most` where they are more.
fn equation_tokens(starts: &Starts<'_>, binding: Option<Given<'_>>, most: usize) -> usize
    ensures { (name : List ℕ) → result ≡ min (counts.equation_tokens starts.now.tokens.now (option_map (placed_in name) binding.entry)) most }
{
    match binding {
        Some(given) => added(expr_tokens(starts, given.expr), 2, most),
        None => 0,
    }
}

/// How many tokens a binding has, or `most` where they are more.
pub fn binding_tokens(
    starts: &Starts<'_>,
    fixed: bool,
    binding: Option<Given<'_>>,
    most: usize,
) -> usize
    ensures { (name : List ℕ) → result ≡ min (counts.binding_tokens starts.now.tokens.now fixed (option_map (placed_in name) binding.entry)) most }
{
    if fixed {
        given_tokens(starts, binding).min(most)
    } else {
        equation_tokens(starts, binding, most)
    }
}
