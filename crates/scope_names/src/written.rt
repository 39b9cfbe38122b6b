//! The names that are written in parts of a tree.
ghost use Rattle.std.specs.Prelude.{◌≡◌, ◌++◌, OnOk, map, flat_map};
ghost use Rattle.std.specs.Option.{option_copied};
ghost use Rattle.class_scopes.specs.Places.{in_option};
ghost use Rattle.scope_names.specs.Written as written;

use mo_parser::{Arg, Path, TreeEq, TreeExpr, TreeNode};
use std::alloc::AllocError;

/// Adds the names in several expressions.
#[cycle(names)]
fn names_in_all<'a>(parts: &'a [TreeExpr], found: &mut Vec<&'a Path>) -> Result<(), AllocError>
    ensures { OnOk result (written.Adds found.old.items (written.joined (map written.names_in parts.now)) found.new.items) }
{
    for part in parts {
        names_in(part, found)?;
    }
    Ok(())
}

/// Adds the names in an expression, in the order of the text.
#[cycle(names)]
pub fn names_in<'a>(expr: &'a TreeExpr, found: &mut Vec<&'a Path>) -> Result<(), AllocError>
    ensures { OnOk result (written.Adds found.old.items (written.names_in expr.now) found.new.items) }
{
    match &expr.node {
        TreeNode::Const(_) => Ok(()),
        TreeNode::Name(path) => {
            found.push(path)?;
            Ok(())
        }
        TreeNode::Call(_, parts) => names_in_all(parts.as_slice(), found),
        TreeNode::Chain(parts, _) => names_in_all(parts.as_slice(), found),
        TreeNode::Relation(_, left, right) => {
            names_in(left.get(), found)?;
            names_in(right.get(), found)
        }
        TreeNode::Neg(part) => names_in(part.get(), found),
        TreeNode::Not(part) => names_in(part.get(), found),
        TreeNode::Power(base, exponent) => {
            names_in(base.get(), found)?;
            names_in(exponent.get(), found)
        }
        TreeNode::If(conditions, branches, other) => {
            names_in_all(conditions.as_slice(), found)?;
            names_in_all(branches.as_slice(), found)?;
            names_in(other.get(), found)
        }
    }
}

/// Adds the names in a value, if there is one.
pub(crate) fn names_in_value<'a>(
    value: Option<&'a TreeExpr>,
    found: &mut Vec<&'a Path>,
) -> Result<(), AllocError>
    ensures { OnOk result (written.Adds found.old.items (in_option written.names_in (option_copied value.entry)) found.new.items) }
{
    match value {
        Some(expr) => names_in(expr, found),
        None => Ok(()),
    }
}

/// Adds the names in several arguments.
#[cycle(arguments)]
pub(crate) fn names_in_args<'a>(
    args: &'a [Arg],
    found: &mut Vec<&'a Path>,
) -> Result<(), AllocError>
    ensures { OnOk result (written.Adds found.old.items (written.joined (map written.names_in_arg args.now)) found.new.items) }
{
    for arg in args {
        names_in_arg(arg, found)?;
    }
    Ok(())
}

/// Adds the names in an argument.
#[cycle(arguments)]
fn names_in_arg<'a>(arg: &'a Arg, found: &mut Vec<&'a Path>) -> Result<(), AllocError>
    ensures { OnOk result (written.Adds found.old.items (written.names_in_arg arg.now) found.new.items) }
{
    names_in_args(arg.args.as_slice(), found)?;
    names_in_value(arg.binding.as_ref(), found)
}

/// Adds the names in several equations.
#[cycle(equations)]
pub(crate) fn names_in_equations<'a>(
    equations: &'a [TreeEq],
    found: &mut Vec<&'a Path>,
) -> Result<(), AllocError>
    ensures { OnOk result (written.Adds found.old.items (written.joined (map written.names_in_equation equations.now)) found.new.items) }
{
    for equation in equations {
        names_in_equation(equation, found)?;
    }
    Ok(())
}

/// Adds the names in an equation, but those that it connects.
#[cycle(equations)]
fn names_in_equation<'a>(equation: &'a TreeEq, found: &mut Vec<&'a Path>) -> Result<(), AllocError>
    ensures { OnOk result (written.Adds found.old.items (written.names_in_equation equation.now) found.new.items) }
{
    match equation {
        TreeEq::Equal(left, right) => {
            names_in(left, found)?;
            names_in(right, found)
        }
        TreeEq::Connect(_, _) => Ok(()),
        TreeEq::When(clock, inside) => {
            names_in(clock, found)?;
            names_in_equations(inside.as_slice(), found)
        }
    }
}

/// Adds the names that several equations connect.
#[cycle(connected)]
pub(crate) fn connected_in_all<'a>(
    equations: &'a [TreeEq],
    found: &mut Vec<&'a Path>,
) -> Result<(), AllocError>
    ensures { OnOk result (written.Adds found.old.items (written.joined (map written.connected_in equations.now)) found.new.items) }
{
    for equation in equations {
        connected_in(equation, found)?;
    }
    Ok(())
}

/// Adds the names that an equation connects.
#[cycle(connected)]
fn connected_in<'a>(equation: &'a TreeEq, found: &mut Vec<&'a Path>) -> Result<(), AllocError>
    ensures { OnOk result (written.Adds found.old.items (written.connected_in equation.now) found.new.items) }
{
    match equation {
        TreeEq::Equal(_, _) => Ok(()),
        TreeEq::Connect(first, second) => {
            found.push(first)?;
            found.push(second)?;
            Ok(())
        }
        TreeEq::When(_, inside) => connected_in_all(inside.as_slice(), found),
    }
}
