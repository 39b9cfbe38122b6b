//! The starts of variables.
ghost use Rattle.std.specs.Prelude.{◌≡◌, ℕ, List, [], ◌∷◌, codes, map, option_map};
ghost use Rattle.std.specs.Option.{option_copied};
ghost use Rattle.flat_instances.specs.Instances as instances;
ghost use Rattle.flat_instances.specs.Kept as kept;
ghost use Rattle.flat_instances.specs.Modifications as modifications;

use crate::given::given_in;
use crate::item::{Given, Variable};
use class_scopes::{File, TypeName};
use mo_parser::{Short, TreeExpr};

/// What stands in a short connector as its start.
fn short_expr<'a>(text: &[u8], short: &'a Short) -> Option<&'a TreeExpr>
    ensures { option_copied result ≡ modifications.first_of (map (λ arg. modifications.given_by text.now arg (codes "start" ∷ [])) short.now.args) }
{
    let start = [b"start".as_slice()];
    given_in(text, short.args.as_slice(), start.as_slice())
}

/// The start that a short connector gives.
fn short_start<'a>(file: &'a File<'a>, type_name: TypeName) -> Option<Given<'a>>
    ensures { (name : List ℕ) → option_map (kept.placed_in name) result ≡ instances.short_start file.now.text.now file.now.classes.now type_name }
{
    match type_name {
        TypeName::Class(class) => match file.short_of(class) {
            Some(short) => match short_expr(file.text, short) {
                Some(expr) => Some(Given { scope: 0, expr }),
                None => None,
            },
            None => None,
        },
        _ => None,
    }
}

/// The outermost start of a variable, or that of its short connector.
pub fn start_of<'a>(file: &'a File<'a>, variable: &Variable<'a>) -> Option<Given<'a>>
    ensures { option_map (kept.placed_in variable.now.name) result ≡ (kept.seen_variable file.now.text.now file.now.classes.now variable.now).start }
{
    match variable.start {
        Some(given) => Some(given),
        None => short_start(file, variable.type_name),
    }
}
