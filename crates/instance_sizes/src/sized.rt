//! The items of a model that is not too large.
ghost use Rattle.std.specs.Prelude.{◌≡◌, IfOk, filter, map};
ghost use Rattle.class_scopes.specs.Reached.{AreReached};
ghost use Rattle.class_order.specs.Orders.{ArePartsFirst};
ghost use Rattle.class_order.specs.Places as places;
ghost use Rattle.flat_instances.specs.Instances.{instances};
ghost use Rattle.flat_instances.specs.Kept as kept;
ghost use Rattle.instance_sizes.specs.Contributing.{contributes};
ghost use Rattle.instance_sizes.specs.Sizes as sizes;
ghost use Rattle.instance_sizes.specs.private.Measures as measures;

use crate::pairs::pair_count;
use class_order::filled;
use class_scopes::{File, NameCode, RuleEnd};
use class_sizes::{equation_counts, owners, token_counts};
use filled_instances::filled_instances;
use flat_instances::Item;
use instance_totals::{Weighing, added};
use item_sizes::{MANY_EQUATIONS, MANY_TOKENS, Measure};
use mo_lexer::Token;
use scope_names::Scopes;
use source_tokens::Starts;
use std::alloc::{AllocError, Global};

/// The place of the name of a class.
fn name_at(file: &File<'_>, class: usize) -> u32
    ensures { result ≡ places.name_at file.now.classes.now class }
{
    match file.classes.get(class) {
        Some(class) => class.name.at,
        None => 0,
    }
}

/// Whether the instances of a class have more names than the limit, or its classes more equations of their own in all
/// instances. Nothing is walked.
fn has_many(
    alloc: Global,
    file: &File<'_>,
    equations: &[usize],
    class: usize,
) -> Result<bool, AllocError>
    requires { measures.AreEquations file.now.text.now file.now.classes.now equations.now }
    ensures { IfOk result (measures.HasMany file.now.text.now file.now.classes.now class) }
{
    let names = Weighing {
        file,
        variable: 1,
        own: [].as_slice(),
        most: MANY_EQUATIONS,
    };
    let own = Weighing {
        file,
        variable: 0,
        own: equations,
        most: MANY_EQUATIONS,
    };
    let total = names.total(alloc, class)?;
    if total == MANY_EQUATIONS {
        return Ok(true);
    }
    let total = own.total(alloc, class)?;
    Ok(total == MANY_EQUATIONS)
}

/// The items of the chosen class that have a part in a model, in flat order. No instance without such an item is walked.
fn walked<'a>(
    alloc: Global,
    scopes: &'a Scopes<'a>,
    order: &[usize],
) -> Result<Vec<Item<'a>>, AllocError>
    requires reached { AreReached scopes.now.named.file.text.now scopes.now.named.file.classes.now scopes.now.named.chosen scopes.now.named.reached.items }
    requires order { ArePartsFirst scopes.now.named.file.text.now scopes.now.named.file.classes.now scopes.now.named.chosen order.now }
    ensures { IfOk result (λ items. map (kept.seen scopes.now.named.file.text.now scopes.now.named.file.classes.now) items.items ≡ filter (contributes scopes.now.named.file.text.now scopes.now.named.file.classes.now) (instances scopes.now.named.file.text.now scopes.now.named.file.classes.now scopes.now.named.chosen)) }
{
    let named = &scopes.named;
    let owners = owners(alloc, scopes)?;
    let own = owners.as_slice();
    let marks = filled(alloc, named, order, own)?;
    let items = filled_instances(alloc, &named.file, named.chosen, own, marks.as_slice())?;
    Ok(items)
}

/// Whether items count more equations or tokens than the limits.
fn exceeds<'a>(
    alloc: Global,
    measure: &Measure<'a, '_>,
    items: &[Item<'a>],
) -> Result<bool, AllocError>
    requires { measures.HaveFew measure.now.scopes.now.named.file.text.now measure.now.scopes.now.named.file.classes.now (map (kept.seen measure.now.scopes.now.named.file.text.now measure.now.scopes.now.named.file.classes.now) items.now) }
    ensures { IfOk result (measures.Exceeds measure.now.scopes.now.named.file.text.now measure.now.scopes.now.named.file.classes.now measure.now.starts.now.tokens.now (map (kept.seen measure.now.scopes.now.named.file.text.now measure.now.scopes.now.named.file.classes.now) items.now)) }
{
    let size = measure.size(items);
    let pairs = pair_count(alloc, measure.scopes, items)?;
    let equations = added(size.equations, pairs, MANY_EQUATIONS);
    if equations == MANY_EQUATIONS {
        return Ok(true);
    }
    Ok(size.tokens == MANY_TOKENS)
}

/// The items of the instances of the chosen class that have a part in the model, in flat order: the variables, and the equations
/// of classes that give something. The error is that N10 is broken, with the place of the name of the chosen class: the model has
/// more than 65,536 names, more than 65,536 equations, where each pair of members that a connect joins counts as one, or more
/// than 4,194,304 tokens. Names and the equations of classes are counted before anything is walked, so the work is that of the
/// file and of as many items as a model may have. `order` is one of `class_order`, and `tokens` are those of the text.
pub fn sized_instances<'a>(
    alloc: Global,
    scopes: &'a Scopes<'a>,
    order: &[usize],
    tokens: &[Token],
) -> Result<Vec<Item<'a>>, RuleEnd>
    requires reached { AreReached scopes.now.named.file.text.now scopes.now.named.file.classes.now scopes.now.named.chosen scopes.now.named.reached.items }
    requires order { ArePartsFirst scopes.now.named.file.text.now scopes.now.named.file.classes.now scopes.now.named.chosen order.now }
    ensures { sizes.Sizes scopes.now.named.file.text.now scopes.now.named.file.classes.now tokens.now scopes.now.named.chosen result }
{
    let file = &scopes.named.file;
    let chosen = scopes.named.chosen;
    let counted = equation_counts(alloc, file, MANY_EQUATIONS)?;
    let equations = counted.as_slice();
    let many = has_many(alloc, file, equations, chosen)?;
    if many {
        return Err(RuleEnd::Broken(NameCode::N10, name_at(file, chosen)));
    }
    let found = walked(alloc, scopes, order)?;
    let items = found.as_slice();
    let starts = Starts::open(alloc, tokens)?;
    let sizes = token_counts(alloc, file, &starts, MANY_TOKENS)?;
    let measure = Measure {
        scopes,
        starts: &starts,
        equations,
        tokens: sizes.as_slice(),
    };
    let large = exceeds(alloc, &measure, items)?;
    if large {
        return Err(RuleEnd::Broken(NameCode::N10, name_at(file, chosen)));
    }
    Ok(found)
}
