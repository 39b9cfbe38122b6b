//! The pairs of names that the connects of instances join.
ghost use Rattle.std.specs.Prelude.{◌≡◌, ◌++◌, ◌<◌, ◌^◌, IfOk, OnOk, flat_map, map};
ghost use Rattle.class_scopes.specs.Tables.{number_of};
ghost use Rattle.class_scopes.specs.Types as types;
ghost use Rattle.connection_equations.specs.Connections as connections;
ghost use Rattle.flat_instances.specs.Kept as kept;

use crate::spellings::{flat_name, member_name};
use class_scopes::{File, Table};
use flat_instances::Item;
use mo_connect::Pair;
use mo_parser::{Element, Path, TreeEq, spelled};
use scope_names::Scopes;
use std::alloc::{AllocError, Global};
use sync_values::List;

/// The equations of a class.
fn equations_of<'a>(file: &File<'a>, class: usize) -> &'a [TreeEq]
    ensures { result.now ≡ types.class_equations file.now.text.now file.now.classes.now class }
{
    match file.classes.get(class) {
        Some(definition) => definition.equations.as_slice(),
        None => &[],
    }
}

/// What the connects of a model's instances are joined with.
#[derive(Drop)]
pub struct Joiner<'a> {
    pub alloc: Global,
    pub scopes: &'a Scopes<'a>,
    /// The numbers of the names but parameters and constants, by their flat names.
    pub names: &'a Table,
    /// How many these are.
    pub count: u32,
    pub ghost few: { count < 2 ^ 32 },
    pub ghost below: { connections.NumbersBelow count (number_of names.now) },
}

impl<'a> Joiner<'a> {
    /// The number of a name.
    fn number(&self, name: &[u8]) -> Option<u32>
        ensures { result ≡ number_of self.now.names.now name.now }
    {
        match self.names.number(name) {
            Some(number) => Some(number as u32),
            None => None,
        }
    }

    /// Adds the pair of two names, where both have numbers.
    fn add_pair(&self, a: &[u8], b: &[u8], pairs: &mut List<Pair>) -> Result<(), AllocError>
        ensures { OnOk result (pairs.new ≡ pairs.old ++ connections.pair_of (number_of self.now.names.now a.now) (number_of self.now.names.now b.now)) }
    {
        let Some(first) = self.number(a) else {
            return Ok(());
        };
        let Some(second) = self.number(b) else {
            return Ok(());
        };
        pairs.push(Pair {
            a: first,
            b: second,
        })?;
        Ok(())
    }

    /// Adds the pair of two members of one name.
    fn add_member(
        &self,
        a: &[u8],
        b: &[u8],
        member: &Element,
        pairs: &mut List<Pair>,
    ) -> Result<(), AllocError>
        ensures { OnOk result (pairs.new ≡ pairs.old ++ connections.member_pair self.now.scopes.now.named.file.text.now self.now.scopes.now.named.file.classes.now (number_of self.now.names.now) a.now b.now member.now) }
    {
        let scopes = self.scopes;
        let name = spelled(scopes.named.file.text, member.name);
        let first = member_name(self.alloc, a, name)?;
        let second = member_name(self.alloc, b, name)?;
        self.add_pair(first.as_slice(), second.as_slice(), pairs)
    }

    /// Adds the pairs of members of one name each.
    fn add_members(
        &self,
        a: &[u8],
        b: &[u8],
        members: &[Element],
        pairs: &mut List<Pair>,
    ) -> Result<(), AllocError>
        ensures { OnOk result (pairs.new ≡ pairs.old ++ flat_map (connections.member_pair self.now.scopes.now.named.file.text.now self.now.scopes.now.named.file.classes.now (number_of self.now.names.now) a.now b.now) members.now) }
    {
        for member in members {
            self.add_member(a, b, member, pairs)?;
        }
        Ok(())
    }

    /// Adds the pairs of two components of one connector.
    fn add_components(
        &self,
        connector: usize,
        a: &[u8],
        b: &[u8],
        pairs: &mut List<Pair>,
    ) -> Result<(), AllocError>
        ensures { OnOk result (pairs.new ≡ pairs.old ++ connections.component_pairs self.now.scopes.now.named.file.text.now self.now.scopes.now.named.file.classes.now (number_of self.now.names.now) connector a.now b.now) }
    {
        let scopes = self.scopes;
        if scopes.named.file.short_of(connector).is_some() {
            return self.add_pair(a, b, pairs);
        }
        self.add_members(a, b, scopes.named.file.elements_of(connector), pairs)
    }

    /// Adds the pairs of a connect of a class in a scope.
    fn add_connect(
        &self,
        scope: &[u8],
        class: usize,
        a: &Path,
        b: &Path,
        pairs: &mut List<Pair>,
    ) -> Result<(), AllocError>
        ensures { OnOk result (pairs.new ≡ pairs.old ++ connections.connect_pairs self.now.scopes.now.named.file.text.now self.now.scopes.now.named.file.classes.now (number_of self.now.names.now) scope.now class a.now b.now) }
    {
        let scopes = self.scopes;
        let Some(element) = scopes.element_along(a.parts.as_slice(), class) else {
            return Ok(());
        };
        let Some(connector) = scopes.class_of(element) else {
            return Ok(());
        };
        let text = scopes.named.file.text;
        let first = flat_name(self.alloc, text, scope, a)?;
        let second = flat_name(self.alloc, text, scope, b)?;
        self.add_components(connector, first.as_slice(), second.as_slice(), pairs)
    }

    /// Adds the pairs of an equation of a class in a scope; only a connect has some.
    fn add_equation(
        &self,
        scope: &[u8],
        class: usize,
        equation: &TreeEq,
        pairs: &mut List<Pair>,
    ) -> Result<(), AllocError>
        ensures { OnOk result (pairs.new ≡ pairs.old ++ connections.equation_pairs self.now.scopes.now.named.file.text.now self.now.scopes.now.named.file.classes.now (number_of self.now.names.now) scope.now class equation.now) }
    {
        match equation {
            TreeEq::Connect(a, b) => self.add_connect(scope, class, a, b, pairs),
            TreeEq::Equal(_, _) => Ok(()),
            TreeEq::When(_, _) => Ok(()),
        }
    }

    /// Adds the pairs of several equations of a class in a scope.
    fn add_equations(
        &self,
        scope: &[u8],
        class: usize,
        equations: &[TreeEq],
        pairs: &mut List<Pair>,
    ) -> Result<(), AllocError>
        ensures { OnOk result (pairs.new ≡ pairs.old ++ flat_map (connections.equation_pairs self.now.scopes.now.named.file.text.now self.now.scopes.now.named.file.classes.now (number_of self.now.names.now) scope.now class) equations.now) }
    {
        for equation in equations {
            self.add_equation(scope, class, equation, pairs)?;
        }
        Ok(())
    }

    /// Adds the pairs of a class in a scope.
    fn add_class(
        &self,
        scope: &[u8],
        class: usize,
        pairs: &mut List<Pair>,
    ) -> Result<(), AllocError>
        ensures { OnOk result (pairs.new ≡ pairs.old ++ connections.class_pairs self.now.scopes.now.named.file.text.now self.now.scopes.now.named.file.classes.now (number_of self.now.names.now) scope.now class) }
    {
        let scopes = self.scopes;
        self.add_equations(scope, class, equations_of(&scopes.named.file, class), pairs)
    }

    /// Adds the pairs of an item of an instance.
    fn add_item(&self, item: &Item<'_>, pairs: &mut List<Pair>) -> Result<(), AllocError>
        ensures { OnOk result (pairs.new ≡ pairs.old ++ connections.kept_pairs self.now.scopes.now.named.file.text.now self.now.scopes.now.named.file.classes.now (number_of self.now.names.now) item.now) }
    {
        match item {
            Item::Declared(_) => Ok(()),
            Item::Own(scope, class) => self.add_class(scope.as_bytes(), *class, pairs),
        }
    }

    /// The pairs that the connects of instances join, in flat order: a pair for each two members of one name of the two
    /// connectors, or for the two components where these are simple. Parameters and constants are in none. Memory that is
    /// refused is the only error.
    pub fn pairs(&self, items: &[Item<'_>]) -> Result<List<Pair>, AllocError>
        ensures { IfOk result (λ pairs. pairs ≡ connections.pairs self.now.scopes.now.named.file.text.now self.now.scopes.now.named.file.classes.now (number_of self.now.names.now) (map (kept.seen self.now.scopes.now.named.file.text.now self.now.scopes.now.named.file.classes.now) items.now)) }
    {
        let mut pairs = List::new(self.alloc);
        for item in items {
            self.add_item(item, &mut pairs)?;
        }
        Ok(pairs)
    }
}
