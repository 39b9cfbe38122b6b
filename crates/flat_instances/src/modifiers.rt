//! The modifications that are in force in an instance.
ghost use Rattle.std.specs.Prelude.{◌≡◌, ℕ, List, [], ◌∷◌, ◌++◌, IfOk, OnOk};
ghost use Rattle.class_scopes.specs.Spelled.{spelled};
ghost use Rattle.flat_instances.specs.Force as force;

use crate::modifier::Modifier;
use indexmap::IndexMap;
use mo_parser::{Arg, Span, spelled};
use std::alloc::{AllocError, Global};

/// The modifications that are in force in an instance, by the parts whose names they begin with, the outermost ones first.
#[derive(Drop)]
pub struct Modifiers<'a> {
    alloc: Global,
    pub lists: IndexMap<&'a [u8], Vec<Modifier<'a>>>,
}

impl<'a> Modifiers<'a> {
    /// No modifications.
    pub fn none(alloc: Global) -> Modifiers<'a>
        ensures { (name : List ℕ) → force.listed result name ≡ [] }
    {
        Modifiers {
            alloc,
            lists: IndexMap::new(alloc),
        }
    }

    /// Adds a modifier of a part.
    fn add(&mut self, name: &'a [u8], modifier: Modifier<'a>) -> Result<(), AllocError>
        ensures { OnOk result (force.AddsTo name.now modifier.entry self.old self.new) }
    {
        let mut list = self.lists.swap_remove(name).unwrap_or(Vec::new(self.alloc));
        list.push(modifier)?;
        self.lists.insert(name, list)?;
        Ok(())
    }

    /// Adds a modifier, by the first of its parts.
    fn add_named(
        &mut self,
        text: &'a [u8],
        first: Span,
        modifier: Modifier<'a>,
    ) -> Result<(), AllocError>
        ensures { OnOk result (force.AddsTo (spelled text.now first) modifier.entry self.old self.new) }
    {
        self.add(spelled(text, first), modifier)
    }

    /// Adds an argument.
    #[cycle(add)]
    fn add_arg(&mut self, text: &'a [u8], scope: usize, arg: &'a Arg) -> Result<(), AllocError>
        ensures { OnOk result (force.AddsGiving text.now (force.arg_given text.now scope arg.now) self.old self.new) }
    {
        match arg.name.parts.as_slice() {
            [first, parts @ ..] => self.add_named(
                text,
                *first,
                Modifier {
                    scope,
                    parts,
                    args: arg.args.as_slice(),
                    binding: arg.binding.as_ref(),
                },
            ),
            [] => self.add_args(text, scope, arg.args.as_slice()),
        }
    }

    /// Adds arguments.
    #[cycle(add)]
    fn add_args(&mut self, text: &'a [u8], scope: usize, args: &'a [Arg]) -> Result<(), AllocError>
        ensures { OnOk result (force.AddsGiving text.now (force.args_given text.now scope args.now) self.old self.new) }
    {
        for arg in args {
            self.add_arg(text, scope, arg)?;
        }
        Ok(())
    }

    /// Adds a modifier by the first of its parts, or its arguments where it has none.
    fn add_modifier(&mut self, text: &'a [u8], modifier: Modifier<'a>) -> Result<(), AllocError>
        ensures { OnOk result (force.AddsGiving text.now (force.modifier_given text.now modifier.entry) self.old self.new) }
    {
        match modifier.parts {
            [first, parts @ ..] => self.add_named(
                text,
                *first,
                Modifier {
                    scope: modifier.scope,
                    parts,
                    args: modifier.args,
                    binding: modifier.binding,
                },
            ),
            [] => self.add_args(text, modifier.scope, modifier.args),
        }
    }

    /// Modifiers by the parts that they begin with. What they give to the instance itself is left out.
    pub fn by_parts(
        alloc: Global,
        text: &'a [u8],
        modifiers: &[Modifier<'a>],
    ) -> Result<Modifiers<'a>, AllocError>
        ensures { IfOk result (λ all. (before name : List ℕ) (rest : List (List ℕ)) → force.offered text.now before name rest all ≡ force.first_given text.now before (name ∷ rest) modifiers.now) }
    {
        let mut all = Modifiers::none(alloc);
        for modifier in modifiers {
            all.add_modifier(text, *modifier)?;
        }
        Ok(all)
    }

    /// The modifiers of a part, and then its own.
    pub fn of_part(
        &self,
        alloc: Global,
        name: &[u8],
        own: Modifier<'a>,
    ) -> Result<Vec<Modifier<'a>>, AllocError>
        ensures { IfOk result (λ modifiers. modifiers.items ≡ force.listed self.now name.now ++ own.entry ∷ []) }
    {
        let mut modifiers = match self.lists.get(name) {
            Some(listed) => Vec::from_slice(alloc, listed.as_slice())?,
            None => Vec::new(alloc),
        };
        modifiers.push(own)?;
        Ok(modifiers)
    }
}
