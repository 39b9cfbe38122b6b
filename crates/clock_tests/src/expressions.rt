//! The raw expressions that trees stand for.
ghost use Rattle.std.specs.Prelude.{◌≡◌, IfOk, map, true};
ghost use Rattle.flat_model.specs.Counters.{all_fit};
ghost use Rattle.flat_model.specs.RawModels.{constants_fit};

use flat_model::{FlatName, RawExpr};
use mo_parser::{Path, Span, TreeExpr, TreeNode};
use sqlite_items::Boxed;
use std::alloc::{AllocError, Global};
use sync_values::{ChainOp, List, Text, Value};

/// The bytes of a piece of the text.
pub(crate) fn spelled(text: &[u8], span: Span) -> &[u8] {
    let (at, end) = (span.at as usize, span.end as usize);
    if at <= end && end <= text.len() {
        &text[at..end]
    } else {
        &text[..0]
    }
}

/// The spelling of a name without dots; empty for one with dots.
pub(crate) fn spelling<'a>(text: &'a [u8], path: &Path) -> &'a [u8] {
    match path.parts.as_slice() {
        [span] => spelled(text, *span),
        _ => &text[..0],
    }
}

/// The number of a name; that of no name, where it is not declared.
fn number_of(names: &[FlatName], text: &[u8]) -> u32 {
    for (number, name) in names.iter().enumerate() {
        if name.text.as_bytes() == text {
            return u32::try_from(number).unwrap_or(u32::MAX);
        }
    }
    u32::MAX
}

fn copied_ops(alloc: Global, ops: &[ChainOp]) -> Result<List<ChainOp>, AllocError> {
    Ok(List::from_vec(Vec::from_slice(alloc, ops)?))
}

/// What raw expressions are read with: the text and the names of its model.
#[derive(Drop)]
pub(crate) struct Reader<'a> {
    pub alloc: Global,
    pub text: &'a [u8],
    pub names: &'a [FlatName],
}

impl<'a> Reader<'a> {
    #[cycle(raw)]
    #[tactic(auto, using(crate::proofs::Constants::constants))]
    fn parts(&self, parts: &[TreeExpr]) -> Result<List<RawExpr>, AllocError>
        ensures { IfOk result (λ found. all_fit (map constants_fit found) ≡ true) }
    {
        let mut found = List::new(self.alloc);
        for part in parts {
            found.push(self.expression(part)?)?;
        }
        Ok(found)
    }

    #[cycle(raw)]
    #[tactic(auto, using(crate::proofs::Constants::constants))]
    fn boxed(&self, part: &TreeExpr) -> Result<Boxed<RawExpr>, AllocError>
        ensures { IfOk result (λ found. constants_fit found ≡ true) }
    {
        Boxed::new(self.alloc, self.expression(part)?)
    }

    /// The raw expression that a tree stands for, node by node.
    #[cycle(raw)]
    #[tactic(auto, using(crate::proofs::Constants::constants))]
    pub(crate) fn expression(&self, expr: &TreeExpr) -> Result<RawExpr, AllocError>
        ensures { IfOk result (λ found. constants_fit found ≡ true) }
    {
        Ok(match &expr.node {
            TreeNode::Const(Value::Int(number)) => RawExpr::Const(Value::Int(*number)),
            TreeNode::Const(Value::Bool(truth)) => RawExpr::Const(Value::Bool(*truth)),
            TreeNode::Name(path) => RawExpr::Name(number_of(self.names, spelling(self.text, path))),
            TreeNode::Call(path, arguments) => {
                let arguments = self.parts(arguments.as_slice())?;
                let function = Text::from_bytes(self.alloc, spelling(self.text, path))?;
                RawExpr::Call(function, arguments)
            }
            TreeNode::Chain(parts, ops) => {
                let parts = self.parts(parts.as_slice())?;
                RawExpr::Chain(parts, copied_ops(self.alloc, ops.as_slice())?)
            }
            TreeNode::Relation(rel, left, right) => {
                let left = self.boxed(left.get())?;
                RawExpr::Relation(*rel, left, self.boxed(right.get())?)
            }
            TreeNode::Neg(part) => RawExpr::Neg(self.boxed(part.get())?),
            TreeNode::Not(part) => RawExpr::Not(self.boxed(part.get())?),
            TreeNode::Power(base, exponent) => {
                let base = self.boxed(base.get())?;
                RawExpr::Power(base, self.boxed(exponent.get())?)
            }
            TreeNode::If(conditions, branches, other) => {
                let conditions = self.parts(conditions.as_slice())?;
                let branches = self.parts(branches.as_slice())?;
                RawExpr::If(conditions, branches, self.boxed(other.get())?)
            }
        })
    }
}
