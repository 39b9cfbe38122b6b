//! The flat model of a class, or the first broken rule.
ghost use Rattle.std.specs.Prelude.{◌≡◌, ◌≤◌, IfOk, Some, length, option_map};
ghost use Rattle.class_scopes.specs.Reached.{chosen_by};
ghost use Rattle.flat_answer.specs.Answers.{Answers};
ghost use Rattle.flat_model.specs.RawModels.{IsRawModel};
ghost use Rattle.mo_flatten.specs.Texts.{IsTreeOf};
ghost use Rattle.mo_flatten.specs.private.Stages as stages;
ghost use Rattle.mo_lexer.specs.Tokens.{HasTokens, model_limit};

use crate::faults::value_end;
use crate::model::model_of;
use crate::place::placed;
use crate::rules::{scoped, sized};
use flat_answer::FlattenEnd;
use flat_instances::Item;
use flat_model::RawModel;
use mo_parser::Tree;
use model_values::model_values;
use scope_names::Scopes;
use std::alloc::Global;

/// The flat model of what the instances of a class have, where no rule up to N10 is broken; or the first variable of N6 or N7.
fn valued<'a>(
    alloc: Global,
    scopes: &'a Scopes<'a>,
    items: &[Item<'a>],
) -> Result<RawModel, FlattenEnd>
    requires tokens { HasTokens scopes.now.named.file.text.now }
    requires items { stages.AreItems scopes.now items.now }
    ensures { Answers scopes.now.named.file.text.now scopes.now.named.file.classes.now (Some scopes.now.named.chosen) result }
{
    let values = model_values(alloc, &scopes.named.file, items)?;
    match values.fault {
        Some(fault) => {
            let end = value_end(alloc, items, fault)?;
            Err(end)
        }
        None => {
            let model = model_of(alloc, scopes, items, &values)?;
            Ok(model)
        }
    }
}

/// The flat model of the chosen class, or the first broken rule from N4 on.
fn flattened<'a>(alloc: Global, scopes: &'a Scopes<'a>) -> Result<RawModel, FlattenEnd>
    requires size { length scopes.now.named.file.text.now ≤ model_limit }
    requires tokens { HasTokens scopes.now.named.file.text.now }
    requires scoped { stages.IsScoped scopes.now }
    ensures { Answers scopes.now.named.file.text.now scopes.now.named.file.classes.now (Some scopes.now.named.chosen) result }
{
    match sized(alloc, scopes) {
        Ok(items) => valued(alloc, scopes, items.as_slice()),
        Err(end) => Err(placed(scopes.named.file.text, end)),
    }
}

/// The bytes of a name.
fn bytes_of<'a>(class: Option<&'a str>) -> Option<&'a [u8]>
    ensures { option_map (λ name. name.now) result ≡ option_map (λ name. name.now) class.entry }
{
    match class {
        Some(name) => Some(name.as_bytes()),
        None => None,
    }
}

/// The flat model of a class of a model file, before its types are known: the names of its instances with their types, starts
/// and inputs, the equations in flat order with the values of parameters and constants put in, and the equations of connections
/// last. `class` is the name of the class, the first of that name; without it the last class of the file is meant.
///
/// The error is the first broken rule, by its code in the order N1, N2, N3, N4, N5, N8, N9, N11, N10, N6, N7 and then by its
/// least place: a line and a column of the text, and of N6 and N7 the flat name of a variable; or that memory was refused.
/// Nothing is asked of the file but that the tree is one of the text, of at most 1 MiB.
///
/// Source: MLS 3.6, chapter 5, "Flattening Process", in this project's profile.
pub fn flatten(
    alloc: Global,
    text: &[u8],
    tree: &Tree,
    class: Option<&str>,
) -> Result<RawModel, FlattenEnd>
    requires size { length text.now ≤ model_limit }
    requires tree { IsTreeOf text.now tree.now }
    ensures answer { Answers text.now tree.now.classes (chosen_by text.now tree.now.classes (option_map (λ name. name.now) class.entry)) result }
    ensures raw { IfOk result IsRawModel }
{
    match scoped(alloc, text, tree.classes.as_slice(), bytes_of(class)) {
        Ok(scopes) => flattened(alloc, &scopes),
        Err(end) => Err(placed(text, end)),
    }
}
