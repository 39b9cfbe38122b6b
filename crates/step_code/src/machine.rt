ghost use Rattle.std.specs.Prelude.{◌≡◌, ◌↔◌, ℤ, length, true, pos, zero, is_ok};
ghost use Rattle.step_code.specs.Machine.{result_of, is_value, IsWithin, AreWithin, ran, ended};

use sync_values::{Fail, abs, add, div, greatest, least, modulo, mul, neg, rem, sub};

/// What an instruction does with the words of two cells. The operators are those of expressions: MLS 3.6, chapter 3,
/// "Operators and Expressions".
#[derive(Clone, Copy, Debug, PartialEq, Eq)]
pub enum Op {
    /// The first word.
    Move,
    /// The first word with its sign turned; `TooLarge` where that does not fit.
    Negate,
    /// The first word without its sign; `TooLarge` where that does not fit.
    Magnitude,
    /// 1 where the first word is 0, else 0.
    Invert,
    /// The sum; `TooLarge` where it does not fit.
    Add,
    /// The difference; `TooLarge` where it does not fit.
    Subtract,
    /// The product; `TooLarge` where it does not fit.
    Multiply,
    /// The quotient without its fraction; `Divide` where the second word is 0.
    Divide,
    /// The remainder with the sign of the second word; `Divide` where that is 0.
    Modulo,
    /// The remainder with the sign of the first word; `Divide` where the second is 0.
    Remainder,
    /// The lesser of both.
    Lesser,
    /// The larger of both.
    Larger,
    /// 1 where the first word is less, else 0; the relations below alike.
    Less,
    LessEq,
    Greater,
    GreaterEq,
    Equal,
    Unequal,
    /// The second word, or `TooLarge` where the first is not 0.
    Guard,
    /// Passes by so many instructions as `to` says.
    Skip,
    /// The same where the first word is 0.
    SkipIfFalse,
    /// The same where the first word is not 0.
    SkipIfTrue,
}

/// One instruction: the words of the cells `left` and `right`, and the cell `to` where the result goes. Where the
/// operator is a skip, `to` says how many instructions are passed by.
#[derive(Clone, Copy, Debug, PartialEq, Eq)]
pub struct Instr {
    pub op: Op,
    pub to: u32,
    pub left: u32,
    pub right: u32,
}

/// Why a run ended early, and how many instructions were left.
#[derive(Clone, Copy, Debug, PartialEq, Eq)]
pub struct Stop {
    pub kind: Fail,
    pub left: usize,
}

/// What an operator gives.
#[inline]
fn outcome(op: Op, x: i64, y: i64) -> Result<i64, Fail>
    requires { is_value op ≡ true }
    ensures { result ≡ result_of op x y }
{
    match op {
        Op::Move => Ok(x),
        Op::Negate => neg(x),
        Op::Magnitude => abs(x),
        Op::Invert => Ok(i64::from(x == 0)),
        Op::Add => add(x, y),
        Op::Subtract => sub(x, y),
        Op::Multiply => mul(x, y),
        Op::Divide => div(x, y),
        Op::Modulo => modulo(x, y),
        Op::Remainder => rem(x, y),
        Op::Lesser => Ok(least(x, y)),
        Op::Larger => Ok(greatest(x, y)),
        Op::Less => Ok(i64::from(x < y)),
        Op::LessEq => Ok(i64::from(x <= y)),
        Op::Greater => Ok(i64::from(y < x)),
        Op::GreaterEq => Ok(i64::from(y <= x)),
        Op::Equal => Ok(i64::from(x == y)),
        Op::Unequal => Ok(i64::from(x != y)),
        Op::Guard => { if x == 0 { Ok(y) } else { Err(Fail::TooLarge) } }
        Op::Skip | Op::SkipIfFalse | Op::SkipIfTrue => unreachable!(),
    }
}

/// Runs instructions from the first on, up to the last or to the first that fails; the cells are then as that one
/// found them. It takes no memory.
pub fn run(code: &[Instr], cells: &mut [i64]) -> Option<Stop>
    requires { AreWithin (length cells.old) code.now }
    ensures ran { ran code.now 0 cells.old ≡ ended cells.new result }
    ensures size { length cells.new ≡ length cells.old }
{
    let mut at = 0;
    while at < code.len() {
        let instr = code[at];
        let left = cells[instr.left as usize];
        let right = cells[instr.right as usize];
        at += 1;
        match instr.op {
            Op::Skip => at += instr.to as usize,
            Op::SkipIfFalse => {
                if left == 0 {
                    at += instr.to as usize;
                }
            }
            Op::SkipIfTrue => {
                if left != 0 {
                    at += instr.to as usize;
                }
            }
            _ => match outcome(instr.op, left, right) {
                Ok(word) => cells[instr.to as usize] = word,
                Err(kind) => {
                    return Some(Stop {
                        kind,
                        left: code.len() - at,
                    });
                }
            },
        }
    }
    None
}

/// Whether an instruction names cells that are there.
fn is_within(instr: Instr, cells: usize) -> bool
    ensures { (result ≡ true) ↔ IsWithin cells instr }
{
    let jumps = matches!(instr.op, Op::Skip | Op::SkipIfFalse | Op::SkipIfTrue);
    (instr.left as usize) < cells
        && (instr.right as usize) < cells
        && (jumps || (instr.to as usize) < cells)
}

/// Whether all instructions name cells that are there.
pub fn fits(code: &[Instr], cells: usize) -> bool
    ensures { (result ≡ true) ↔ AreWithin cells code.now }
{
    let mut i = code.len();
    while 0 < i {
        i -= 1;
        if !is_within(code[i], cells) {
            return false;
        }
    }
    true
}
