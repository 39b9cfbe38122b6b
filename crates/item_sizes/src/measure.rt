//! What items of instances count.
ghost use Rattle.std.specs.Prelude.{map};
ghost use Rattle.flat_instances.specs.Kept as kept;
ghost use Rattle.item_sizes.specs.Measures as measures;

use crate::bindings::{binding_equations, binding_tokens, given_tokens, is_fixed};
use crate::size::{MANY_EQUATIONS, MANY_TOKENS, Size};
use flat_instances::{Item, Variable, start_of};
use instance_totals::{added, number_at};
use scope_names::Scopes;
use source_tokens::Starts;

/// What the items of a file count: `equations` and `tokens` have what the own equations of each class count.
#[derive(Drop)]
pub struct Measure<'a, 's> {
    pub scopes: &'a Scopes<'a>,
    pub starts: &'s Starts<'s>,
    pub equations: &'s [usize],
    pub tokens: &'s [usize],
    pub ghost counted: { measures.AreCounted scopes.now.named.file.text.now scopes.now.named.file.classes.now starts.now.tokens.now equations.now tokens.now },
}

impl<'a, 's> Measure<'a, 's> {
    /// What a variable counts.
    fn variable_size(&self, variable: &Variable<'a>) -> Size
        ensures { measures.IsSize self.now.scopes.now.named.file.text.now self.now.scopes.now.named.file.classes.now self.now.starts.now.tokens.now (measures.declared self.now.scopes.now.named.file.text.now self.now.scopes.now.named.file.classes.now variable.now) result }
    {
        let fixed = is_fixed(variable.element.variability);
        let binding = variable.binding;
        let start = start_of(&self.scopes.named.file, variable);
        let tokens = binding_tokens(self.starts, fixed, binding, MANY_TOKENS);
        Size {
            equations: binding_equations(fixed, binding),
            tokens: added(tokens, given_tokens(self.starts, start), MANY_TOKENS),
        }
    }

    /// What an item counts.
    fn item_size(&self, item: &Item<'a>) -> Size
        ensures { measures.IsSize self.now.scopes.now.named.file.text.now self.now.scopes.now.named.file.classes.now self.now.starts.now.tokens.now (kept.seen self.now.scopes.now.named.file.text.now self.now.scopes.now.named.file.classes.now item.now) result }
    {
        match item {
            Item::Declared(variable) => self.variable_size(variable),
            Item::Own(_, class) => Size {
                equations: number_at(self.equations, *class),
                tokens: number_at(self.tokens, *class),
            },
        }
    }

    /// What items count.
    pub fn size(&self, items: &[Item<'a>]) -> Size
        ensures { measures.AreSizes self.now.scopes.now.named.file.text.now self.now.scopes.now.named.file.classes.now self.now.starts.now.tokens.now (map (kept.seen self.now.scopes.now.named.file.text.now self.now.scopes.now.named.file.classes.now) items.now) result }
    {
        let mut equations = 0;
        let mut tokens = 0;
        for item in items {
            let size = self.item_size(item);
            equations = added(equations, size.equations, MANY_EQUATIONS);
            tokens = added(tokens, size.tokens, MANY_TOKENS);
        }
        Size { equations, tokens }
    }
}
