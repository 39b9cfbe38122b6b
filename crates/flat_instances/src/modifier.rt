//! What is left of modifications behind the names that lead to an instance.
ghost use Rattle.std.specs.Prelude.{◌≡◌, ℕ, List, [], map, option_map};
ghost use Rattle.std.specs.Option.{option_copied};
ghost use Rattle.flat_instances.specs.Kept as kept;
ghost use Rattle.flat_instances.specs.Force as force;

use crate::given::{behind, given_in};
use crate::item::Given;
use mo_parser::{Arg, Element, Span, TreeExpr};

/// What is left of a modification: the parts of its name that are still to come, and what it gives behind them.
#[derive(Clone, Copy)]
pub struct Modifier<'a> {
    /// The length of what stands before the names beside the modification.
    pub scope: usize,
    pub parts: &'a [Span],
    pub args: &'a [Arg],
    pub binding: Option<&'a TreeExpr>,
}

/// The modifier that a declaration is for its own component.
pub fn own(scope: usize, element: &Element) -> Modifier<'_>
    ensures scope { result.scope ≡ scope }
    ensures parts { result.parts.now ≡ [] }
    ensures args { result.args.now ≡ element.now.args }
    ensures binding { option_copied result.binding ≡ element.now.binding }
{
    Modifier {
        scope,
        parts: &[],
        args: element.args.as_slice(),
        binding: element.binding.as_ref(),
    }
}

/// What a modifier gives to a path.
fn gives<'a>(text: &[u8], modifier: Modifier<'a>, path: &[&[u8]]) -> Option<&'a TreeExpr>
    ensures { option_copied result ≡ force.gives text.now modifier.entry (map (λ name. name.now) path.now) }
{
    match behind(text, modifier.parts, path) {
        Some([]) => modifier.binding,
        Some(rest) => given_in(text, modifier.args, rest),
        None => None,
    }
}

/// What the first of several modifiers that gives something gives to a path.
pub fn given_to<'a>(text: &[u8], modifiers: &[Modifier<'a>], path: &[&[u8]]) -> Option<Given<'a>>
    ensures { (name : List ℕ) → option_map (kept.placed_in name) result ≡ force.first_given text.now name (map (λ part. part.now) path.now) modifiers.now }
{
    for modifier in modifiers {
        if let Some(expr) = gives(text, *modifier, path) {
            return Some(Given {
                scope: modifier.scope,
                expr,
            });
        }
    }
    None
}
