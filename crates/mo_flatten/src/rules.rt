//! The rules that are broken at bytes of the text, in their order.
ghost use Rattle.std.specs.Prelude.{◌≡◌, ◌≤◌, ◌<◌, ◌^◌, ℕ, List, Option, length, option_map};
ghost use Rattle.class_scopes.specs.Names.{AreNamed};
ghost use Rattle.class_scopes.specs.Reached.{chosen_by};
ghost use Rattle.mo_parser.specs.declared.tree.ClassDef.{ClassDef as Class};
ghost use Rattle.mo_flatten.specs.private.Stages as stages;
ghost use Rattle.mo_lexer.specs.Tokens.{HasTokens, model_limit};

use argument_rules::misplaced_argument;
use class_order::{class_order, too_deep};
use class_rules::{refused_type, unfit_connect};
use class_scopes::{NameCode, Named, RuleEnd, names};
use flat_instances::Item;
use instance_sizes::sized_instances;
use mo_lexer::{LexEnd, Token, lex};
use mo_parser::ClassDef;
use scope_names::{Scopes, unknown_name};
use std::alloc::Global;
use sync_values::List;

/// The components of the classes of a file by their names, where N3 is kept.
fn with_scopes<'a>(alloc: Global, named: Named<'a>) -> Result<Scopes<'a>, RuleEnd>
    requires { (text : List ℕ) × (classes : List Class) × (choice : Option ℕ) × AreNamed text classes choice named }
    ensures { (text : List ℕ) (classes : List Class) (choice : Option ℕ) → AreNamed text classes choice named.entry → stages.Scoped text classes choice result }
{
    let scopes = Scopes::open(alloc, named)?;
    match unknown_name(alloc, &scopes)? {
        Some(at) => Err(RuleEnd::Broken(NameCode::N3, at)),
        None => Ok(scopes),
    }
}

/// The classes and components of a file by their names, where N1, N2 and N3 are kept.
pub fn scoped<'a>(
    alloc: Global,
    text: &'a [u8],
    classes: &'a [ClassDef],
    class: Option<&[u8]>,
) -> Result<Scopes<'a>, RuleEnd>
    requires { length text.now < 2 ^ 32 }
    ensures { stages.Scoped text.now classes.now (chosen_by text.now classes.now (option_map (λ name. name.now) class.entry)) result }
{
    match names(alloc, text, classes, class) {
        Ok(named) => with_scopes(alloc, named),
        Err(end) => Err(end),
    }
}

/// An order of the classes in which parts come before wholes, where N4 is kept.
fn parts_first(alloc: Global, scopes: &Scopes<'_>) -> Result<Vec<usize>, RuleEnd>
    requires { stages.IsScoped scopes.now }
    ensures { stages.PartsFirst scopes.now result }
{
    match class_order(alloc, &scopes.named) {
        Ok(order) => Ok(order),
        Err(end) => Err(end),
    }
}

/// An order of the classes in which parts come before wholes, where N4, N5, N8, N9 and N11 are kept.
fn ordered(alloc: Global, scopes: &Scopes<'_>) -> Result<Vec<usize>, RuleEnd>
    requires { stages.IsScoped scopes.now }
    ensures { stages.Ordered scopes.now result }
{
    let order = parts_first(alloc, scopes)?;
    match misplaced_argument(alloc, scopes)? {
        Some(at) => return Err(RuleEnd::Broken(NameCode::N5, at)),
        None => {}
    }
    match unfit_connect(scopes) {
        Some(at) => return Err(RuleEnd::Broken(NameCode::N8, at)),
        None => {}
    }
    match refused_type(&scopes.named) {
        Some(at) => return Err(RuleEnd::Broken(NameCode::N9, at)),
        None => {}
    }
    match too_deep(alloc, &scopes.named, order.as_slice())? {
        Some(at) => Err(RuleEnd::Broken(NameCode::N11, at)),
        None => Ok(order),
    }
}

/// The tokens of a text that has some.
fn tokens_of(alloc: Global, text: &[u8]) -> Result<List<Token>, RuleEnd>
    requires size { length text.now ≤ model_limit }
    requires tokens { HasTokens text.now }
    ensures { stages.Lexed text.now result }
{
    match lex(alloc, text) {
        Ok(tokens) => Ok(tokens),
        Err(LexEnd::Fault { code: _, at: _ }) => unreachable!(),
        Err(LexEnd::NoMemory) => Err(RuleEnd::NoMemory),
    }
}

/// What the instances of the chosen class have that counts, where no rule up to N10 is broken.
pub fn sized<'a>(alloc: Global, scopes: &'a Scopes<'a>) -> Result<Vec<Item<'a>>, RuleEnd>
    requires size { length scopes.now.named.file.text.now ≤ model_limit }
    requires tokens { HasTokens scopes.now.named.file.text.now }
    requires scoped { stages.IsScoped scopes.now }
    ensures { stages.Sized scopes.now result }
{
    let order = ordered(alloc, scopes)?;
    let tokens = tokens_of(alloc, scopes.named.file.text)?;
    sized_instances(alloc, scopes, order.as_slice(), tokens.as_slice())
}
