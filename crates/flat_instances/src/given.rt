//! What modifications give.
ghost use Rattle.std.specs.Prelude.{◌≡◌, [], ◌∷◌, map, option_map, Some, None};
ghost use Rattle.std.specs.Option.{option_copied};
ghost use Rattle.class_scopes.specs.Spelled.{spelled};
ghost use Rattle.flat_instances.specs.Modifications as modifications;

use mo_parser::{Arg, Span, TreeExpr, spelled};

/// What is left of a path behind its first parts, where it begins with these.
pub fn behind<'p, 'n>(text: &[u8], parts: &[Span], path: &'p [&'n [u8]]) -> Option<&'p [&'n [u8]]>
    ensures { option_map (λ rest. map (λ name. name.now) rest.now) result ≡ modifications.behind (map (spelled text.now) parts.now) (map (λ name. name.now) path.now) }
{
    let mut rest = path;
    for part in parts {
        match rest {
            [first, others @ ..] => {
                if spelled(text, *part) != *first {
                    return None;
                }
                rest = others;
            }
            [] => return None,
        }
    }
    Some(rest)
}

/// What an argument gives to a path.
#[cycle(given)]
fn given_by<'a>(text: &[u8], arg: &'a Arg, path: &[&[u8]]) -> Option<&'a TreeExpr>
    ensures { option_copied result ≡ modifications.given_by text.now arg.now (map (λ name. name.now) path.now) }
{
    match behind(text, arg.name.parts.as_slice(), path) {
        Some([]) => arg.binding.as_ref(),
        Some(rest) => given_in(text, arg.args.as_slice(), rest),
        None => None,
    }
}

/// What the first of several arguments that gives something gives to a path.
#[cycle(given)]
pub(crate) fn given_in<'a>(text: &[u8], args: &'a [Arg], path: &[&[u8]]) -> Option<&'a TreeExpr>
    ensures { option_copied result ≡ modifications.first_of (map (λ arg. modifications.given_by text.now arg (map (λ name. name.now) path.now)) args.now) }
{
    for arg in args {
        let given = given_by(text, arg, path);
        if given.is_some() {
            return given;
        }
    }
    None
}
