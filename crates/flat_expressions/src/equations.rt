//! The equations and clauses that those of instances stand for.
ghost use Rattle.std.specs.Prelude.{◌≡◌, ◌++◌, ◌∷◌, [], ◌<◌, ◌+◌, ◌^◌, OnOk, Some, length, map};
ghost use Rattle.class_scopes.specs.Tables.{number_of};
ghost use Rattle.parameter_values.specs.Slots.{seen};
ghost use Rattle.flat_expressions.specs.Following.{FollowsBoth};
ghost use Rattle.flat_expressions.specs.Equations as eqs;
ghost use Rattle.flat_expressions.specs.Expressions as lowered;

use crate::expressions::Lowering;
use flat_model::{RawEq, RawExpr};
use mo_parser::{TreeEq, TreeExpr};
use std::alloc::AllocError;
use sync_values::List;

/// An equation of two sides that are lowered, or for which memory was refused.
pub fn equation_of(
    left: Result<RawExpr, AllocError>,
    right: Result<RawExpr, AllocError>,
    clause: Option<u32>,
) -> Result<RawEq, AllocError>
    ensures { FollowsBoth (λ left right. eqs.in_clause clause (eqs.sides left right)) left right result }
{
    Ok(RawEq {
        left: left?,
        right: right?,
        clause,
    })
}

impl<'a> Lowering<'a> {
    /// Adds an equation with its clause.
    fn add_sides(
        &self,
        scope: &[u8],
        left: &TreeExpr,
        right: &TreeExpr,
        clause: Option<u32>,
        equations: &mut List<RawEq>,
    ) -> Result<(), AllocError>
        ensures { OnOk result (equations.new ≡ equations.old ++ eqs.in_clause clause (eqs.sides_of self.now.text.now (seen self.now.parameters.now self.now.values.now) (number_of self.now.names.now) scope.now left.now right.now) ∷ []) }
    {
        let equation = equation_of(
            self.expr_lowered(scope, left),
            self.expr_lowered(scope, right),
            clause,
        )?;
        equations.push(equation)?;
        Ok(())
    }

    /// Adds an equation inside a clause.
    fn add_member(
        &self,
        scope: &[u8],
        equation: &TreeEq,
        clause: u32,
        equations: &mut List<RawEq>,
    ) -> Result<(), AllocError>
        ensures { OnOk result (equations.new ≡ equations.old ++ map (eqs.in_clause (Some clause)) (eqs.sides_at self.now.text.now (seen self.now.parameters.now self.now.values.now) (number_of self.now.names.now) scope.now equation.now)) }
    {
        match equation {
            TreeEq::Equal(left, right) => {
                self.add_sides(scope, left, right, Some(clause), equations)
            }
            TreeEq::Connect(_, _) => Ok(()),
            TreeEq::When(_, _) => Ok(()),
        }
    }

    /// Adds the equations inside a clause.
    fn add_members(
        &self,
        scope: &[u8],
        inside: &[TreeEq],
        clause: u32,
        equations: &mut List<RawEq>,
    ) -> Result<(), AllocError>
        ensures { OnOk result (equations.new ≡ equations.old ++ map (eqs.in_clause (Some clause)) (eqs.sides_in self.now.text.now (seen self.now.parameters.now self.now.values.now) (number_of self.now.names.now) scope.now inside.now)) }
    {
        for equation in inside {
            self.add_member(scope, equation, clause, equations)?;
        }
        Ok(())
    }

    /// Adds a clause, unless it has no equation.
    fn add_clause(
        &self,
        scope: &[u8],
        clock: &TreeExpr,
        inside: &[TreeEq],
        equations: &mut List<RawEq>,
        clauses: &mut List<RawExpr>,
    ) -> Result<(), AllocError>
        requires { length clauses.old < 2 ^ 32 }
        ensures { OnOk result (eqs.Adds equations.old clauses.old (eqs.clause (lowered.expr_of self.now.text.now (seen self.now.parameters.now self.now.values.now) (number_of self.now.names.now) scope.now clock.now) (eqs.sides_in self.now.text.now (seen self.now.parameters.now self.now.values.now) (number_of self.now.names.now) scope.now inside.now)) equations.new clauses.new) }
    {
        let before = equations.len();
        self.add_members(scope, inside, clauses.len() as u32, equations)?;
        if before < equations.len() {
            clauses.push(self.expr_lowered(scope, clock)?)?;
        }
        Ok(())
    }

    /// Adds an equation of a class or one of its clauses.
    fn add_group(
        &self,
        scope: &[u8],
        equation: &TreeEq,
        equations: &mut List<RawEq>,
        clauses: &mut List<RawExpr>,
    ) -> Result<(), AllocError>
        requires { length clauses.old < 2 ^ 32 }
        ensures { OnOk result (eqs.Adds equations.old clauses.old (eqs.groups_at self.now.text.now (seen self.now.parameters.now self.now.values.now) (number_of self.now.names.now) scope.now equation.now) equations.new clauses.new) }
    {
        match equation {
            TreeEq::Equal(left, right) => self.add_sides(scope, left, right, None, equations),
            TreeEq::Connect(_, _) => Ok(()),
            TreeEq::When(clock, inside) => {
                self.add_clause(scope, clock, inside.as_slice(), equations, clauses)
            }
        }
    }

    /// Adds the equations and clauses of a class, which are written in a scope, with the numbers of the clauses. A connect adds
    /// none. Memory that is refused is the only error.
    pub fn add_equations(
        &self,
        scope: &[u8],
        class_equations: &[TreeEq],
        equations: &mut List<RawEq>,
        clauses: &mut List<RawExpr>,
    ) -> Result<(), AllocError>
        requires { length clauses.old + length (eqs.clocks_of (eqs.groups_in self.now.text.now (seen self.now.parameters.now self.now.values.now) (number_of self.now.names.now) scope.now class_equations.now)) < 2 ^ 32 }
        ensures { OnOk result (eqs.Adds equations.old clauses.old (eqs.groups_in self.now.text.now (seen self.now.parameters.now self.now.values.now) (number_of self.now.names.now) scope.now class_equations.now) equations.new clauses.new) }
    {
        for equation in class_equations {
            self.add_group(scope, equation, equations, clauses)?;
        }
        Ok(())
    }
}
