//! The equations and clauses of all that instances have.
ghost use Rattle.std.specs.Prelude.{◌≡◌, ◌++◌, ◌∷◌, [], ◌<◌, ◌+◌, ◌^◌, IfOk, OnOk, List, None, ℕ, length, map, option_map, take};
ghost use Rattle.class_scopes.specs.Tables.{number_of};
ghost use Rattle.class_scopes.specs.Types.{class_equations};
ghost use Rattle.flat_instances.specs.Kept as kept;
ghost use Rattle.parameter_values.specs.Values as values;
ghost use Rattle.parameter_values.specs.Slots.{seen};
ghost use Rattle.flat_expressions.specs.Equations as eqs;
ghost use Rattle.flat_expressions.specs.Expressions as lowered;

use crate::equations::equation_of;
use crate::expressions::Lowering;
use flat_instances::{Given, Item, Variable};
use flat_model::{RawEq, RawExpr};
use mo_parser::{ClassDef, TreeEq, Variability};
use std::alloc::AllocError;
use sync_values::List;

/// The equations of a model, and the clocks of its clauses by their numbers.
#[derive(Drop)]
pub struct Lowered {
    pub equations: List<RawEq>,
    pub clauses: List<RawExpr>,
}

/// Whether a component is a parameter or constant.
fn is_fixed(variability: Variability) -> bool
    ensures { result ≡ values.is_fixed variability }
{
    match variability {
        Variability::Plain => false,
        Variability::Parameter => true,
        Variability::Constant => true,
    }
}

/// So many of the first bytes, or all where they are fewer.
fn front(bytes: &[u8], count: usize) -> &[u8]
    ensures { result.now ≡ take count bytes.now }
{
    if count <= bytes.len() {
        &bytes[..count]
    } else {
        bytes
    }
}

/// The equations of a class.
fn equations_in(classes: &[ClassDef], class: usize) -> &[TreeEq]
    ensures { (text : List ℕ) → result.now ≡ class_equations text classes.now class }
{
    match classes.get(class) {
        Some(class) => class.equations.as_slice(),
        None => &[],
    }
}

impl<'a> Lowering<'a> {
    /// Adds the equation of a name and what is given to it.
    fn add_given(
        &self,
        name: &[u8],
        given: Given<'_>,
        equations: &mut List<RawEq>,
    ) -> Result<(), AllocError>
        ensures { OnOk result (equations.new ≡ equations.old ++ eqs.in_clause None (eqs.sides (lowered.name_by self.now.text.now (seen self.now.parameters.now self.now.values.now) (number_of self.now.names.now) name.now) (lowered.expr_of self.now.text.now (seen self.now.parameters.now self.now.values.now) (number_of self.now.names.now) (take given.entry.scope name.now) given.entry.expr.now)) ∷ []) }
    {
        let equation = equation_of(
            Ok(self.named(name)),
            self.expr_lowered(front(name, given.scope), given.expr),
            None,
        )?;
        equations.push(equation)?;
        Ok(())
    }

    /// Adds the binding of a variable, unless it is a parameter or constant.
    fn add_binding(
        &self,
        variable: &Variable<'_>,
        equations: &mut List<RawEq>,
    ) -> Result<(), AllocError>
        ensures { OnOk result (equations.new ≡ equations.old ++ map (eqs.in_clause None) (eqs.binding_sides self.now.text.now (seen self.now.parameters.now self.now.values.now) (number_of self.now.names.now) (values.is_fixed variable.now.element.now.variability) variable.now.name (option_map (kept.placed_in variable.now.name) variable.now.binding))) }
    {
        if is_fixed(variable.element.variability) {
            return Ok(());
        }
        match variable.binding {
            Some(given) => self.add_given(variable.name.as_bytes(), given, equations),
            None => Ok(()),
        }
    }

    /// Adds the equations and clauses of an item.
    fn add_item(
        &self,
        classes: &[ClassDef],
        item: &Item<'_>,
        equations: &mut List<RawEq>,
        clauses: &mut List<RawExpr>,
    ) -> Result<(), AllocError>
        requires { length clauses.old + length (eqs.clocks_of (eqs.groups_of self.now.text.now (seen self.now.parameters.now self.now.values.now) (number_of self.now.names.now) classes.now (kept.seen self.now.text.now classes.now item.now))) < 2 ^ 32 }
        ensures { OnOk result (eqs.Adds equations.old clauses.old (eqs.groups_of self.now.text.now (seen self.now.parameters.now self.now.values.now) (number_of self.now.names.now) classes.now (kept.seen self.now.text.now classes.now item.now)) equations.new clauses.new) }
    {
        match item {
            Item::Declared(variable) => self.add_binding(variable, equations),
            Item::Own(scope, class) => self.add_equations(
                scope.as_bytes(),
                equations_in(classes, *class),
                equations,
                clauses,
            ),
        }
    }

    /// The equations and clauses of a model, from all that its instances have: bindings of variables in their place, and then the
    /// equations of each class in each instance, with the clauses numbered in this order. Equations of connections are not among
    /// them. Memory that is refused is the only error.
    pub fn equations_lowered(
        &self,
        classes: &[ClassDef],
        items: &[Item<'_>],
    ) -> Result<Lowered, AllocError>
        requires { length (eqs.clocks_of (eqs.groups self.now.text.now (seen self.now.parameters.now self.now.values.now) (number_of self.now.names.now) classes.now (map (kept.seen self.now.text.now classes.now) items.now))) < 2 ^ 32 }
        ensures equations { IfOk result (λ found. found.equations ≡ eqs.equations_from 0 (eqs.groups self.now.text.now (seen self.now.parameters.now self.now.values.now) (number_of self.now.names.now) classes.now (map (kept.seen self.now.text.now classes.now) items.now))) }
        ensures clauses { IfOk result (λ found. found.clauses ≡ eqs.clocks_of (eqs.groups self.now.text.now (seen self.now.parameters.now self.now.values.now) (number_of self.now.names.now) classes.now (map (kept.seen self.now.text.now classes.now) items.now))) }
    {
        let mut equations = List::new(self.alloc);
        let mut clauses = List::new(self.alloc);
        for item in items {
            self.add_item(classes, item, &mut equations, &mut clauses)?;
        }
        Ok(Lowered { equations, clauses })
    }
}
