//! The expressions that those of instances stand for.
ghost use Rattle.std.specs.Prelude.{◌≡◌, map};
ghost use Rattle.class_scopes.specs.Spelled as spellings;
ghost use Rattle.class_scopes.specs.Tables.{number_of};
ghost use Rattle.parameter_values.specs.Slots.{seen};
ghost use Rattle.flat_expressions.specs.Following.{Gives, NumbersFit};
ghost use Rattle.flat_expressions.specs.Expressions as lowered;

use crate::nodes::{called, chained, chosen, inverted, negated, raised, related};
use crate::spellings::{dotted, flat_name};
use class_scopes::{Table, is_time};
use flat_model::RawExpr;
use mo_parser::{Path, TreeExpr, TreeNode};
use sqlite_items::Boxed;
use std::alloc::{AllocError, Global};
use sync_values::{List, Text, Value};

/// What the expressions of a model's instances are lowered with.
#[derive(Drop)]
pub struct Lowering<'a> {
    pub alloc: Global,
    pub text: &'a [u8],
    /// The numbers of the parameters and constants, by their flat names.
    pub parameters: &'a Table,
    /// Their values.
    pub values: &'a [Option<Value>],
    /// The numbers of the other names, by their flat names.
    pub names: &'a Table,
    pub ghost few: { NumbersFit names.now },
}

impl<'a> Lowering<'a> {
    /// The value of a parameter or constant, by its flat name.
    fn value(&self, name: &[u8]) -> Option<Value>
        ensures { result ≡ seen self.now.parameters.now self.now.values.now name.now }
    {
        let number = self.parameters.number(name)?;
        match self.values.get(number) {
            Some(value) => *value,
            None => None,
        }
    }

    /// What a flat name without a value stands for.
    fn numbered(&self, name: &[u8]) -> RawExpr
        ensures { result ≡ lowered.numbered (number_of self.now.names.now name.now) }
    {
        match self.names.number(name) {
            Some(number) => RawExpr::Name(number as u32),
            None => RawExpr::Time,
        }
    }

    /// What a flat name stands for: the value of a parameter or constant, or else the number of the name.
    pub fn named(&self, name: &[u8]) -> RawExpr
        ensures { result ≡ lowered.name_by self.now.text.now (seen self.now.parameters.now self.now.values.now) (number_of self.now.names.now) name.now }
    {
        match self.value(name) {
            Some(value) => RawExpr::Const(value),
            None => self.numbered(name),
        }
    }

    /// What a name in a scope stands for.
    fn name_lowered(&self, scope: &[u8], path: &Path) -> Result<RawExpr, AllocError>
        ensures { Gives (lowered.name_lowered self.now.text.now (seen self.now.parameters.now self.now.values.now) (number_of self.now.names.now) scope.now (spellings.idents self.now.text.now path.now)) result }
    {
        if is_time(self.text, path.parts.as_slice()) {
            return Ok(RawExpr::Time);
        }
        let name = flat_name(self.alloc, self.text, scope, path)?;
        Ok(self.named(name.as_slice()))
    }

    /// The name of a function.
    fn function(&self, path: &Path) -> Result<Text, AllocError>
        ensures { Gives (spellings.dotted (spellings.idents self.now.text.now path.now)) result }
    {
        let name = dotted(self.alloc, self.text, path)?;
        Text::from_bytes(self.alloc, name.as_slice())
    }

    /// The expressions that several in a scope stand for.
    #[cycle(expression)]
    fn all_lowered(&self, scope: &[u8], parts: &[TreeExpr]) -> Result<List<RawExpr>, AllocError>
        ensures { Gives (map (lowered.expr_of self.now.text.now (seen self.now.parameters.now self.now.values.now) (number_of self.now.names.now) scope.now) parts.now) result }
    {
        let mut found = List::new(self.alloc);
        for part in parts {
            found.push(self.expr_lowered(scope, part)?)?;
        }
        Ok(found)
    }

    /// The expression that one in a scope stands for, in a box of its own.
    #[cycle(expression)]
    fn boxed_lowered(&self, scope: &[u8], expr: &TreeExpr) -> Result<Boxed<RawExpr>, AllocError>
        ensures { Gives (lowered.expr_of self.now.text.now (seen self.now.parameters.now self.now.values.now) (number_of self.now.names.now) scope.now expr.now) result }
    {
        Ok(Boxed::new(self.alloc, self.expr_lowered(scope, expr)?)?)
    }

    /// The expression that one stands for that is written in a scope, which is what stands before the names beside it.
    /// Memory that is refused is the only error.
    #[cycle(expression)]
    pub fn expr_lowered(&self, scope: &[u8], expr: &TreeExpr) -> Result<RawExpr, AllocError>
        ensures { Gives (lowered.expr_of self.now.text.now (seen self.now.parameters.now self.now.values.now) (number_of self.now.names.now) scope.now expr.now) result }
    {
        match &expr.node {
            TreeNode::Const(value) => Ok(RawExpr::Const(*value)),
            TreeNode::Name(path) => self.name_lowered(scope, path),
            TreeNode::Call(path, arguments) => {
                called(
                    self.function(path),
                    self.all_lowered(scope, arguments.as_slice()),
                )
            }
            TreeNode::Chain(parts, ops) => {
                chained(self.alloc, self.all_lowered(scope, parts.as_slice()), ops)
            }
            TreeNode::Relation(rel, left, right) => related(
                *rel,
                self.boxed_lowered(scope, left.get()),
                self.boxed_lowered(scope, right.get()),
            ),
            TreeNode::Neg(part) => negated(self.boxed_lowered(scope, part.get())),
            TreeNode::Not(part) => inverted(self.boxed_lowered(scope, part.get())),
            TreeNode::Power(base, exponent) => raised(
                self.boxed_lowered(scope, base.get()),
                self.boxed_lowered(scope, exponent.get()),
            ),
            TreeNode::If(conditions, branches, other) => chosen(
                self.all_lowered(scope, conditions.as_slice()),
                self.all_lowered(scope, branches.as_slice()),
                self.boxed_lowered(scope, other.get()),
            ),
        }
    }
}
