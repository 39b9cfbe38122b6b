//! The words of operators and functions.
ghost use Rattle.std.specs.Prelude.{◌≡◌};
ghost use Rattle.trace_print.specs.Printed.{rel_text, op_text, fun_text};

use flat_model::Fun;
use sync_values::{ChainOp, Rel};

pub(crate) fn rel_text(rel: Rel) -> &'static [u8]
    ensures { result.now ≡ rel_text rel }
{
    match rel {
        Rel::Less => b" < ",
        Rel::LessEq => b" <= ",
        Rel::Greater => b" > ",
        Rel::GreaterEq => b" >= ",
        Rel::Equal => b" == ",
        Rel::Unequal => b" <> ",
    }
}

pub(crate) fn op_text(op: ChainOp) -> &'static [u8]
    ensures { result.now ≡ op_text op }
{
    match op {
        ChainOp::Plus => b" + ",
        ChainOp::Minus => b" - ",
        ChainOp::Times => b" * ",
        ChainOp::Over => b" / ",
        ChainOp::And => b" and ",
        ChainOp::Or => b" or ",
    }
}

pub(crate) fn fun_text(function: Fun) -> &'static [u8]
    ensures { result.now ≡ fun_text function }
{
    match function {
        Fun::Div => b"div",
        Fun::Mod => b"mod",
        Fun::Rem => b"rem",
        Fun::Abs => b"abs",
        Fun::Min => b"min",
        Fun::Max => b"max",
    }
}
