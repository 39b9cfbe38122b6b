ghost use Rattle.std.specs.Prelude.{◌≡◌, ℕ, ◌↔◌, ◌≤◌};
ghost use Rattle.step_code.specs.Machine.{is_value, IsWithin, AreWithin};

use step_code::{Instr, Op};

/// The larger of two numbers.
fn larger(a: usize, b: usize) -> usize
    ensures { (n : ℕ) → (result ≤ n) ↔ ((a ≤ n) × (b ≤ n)) }
{
    if a < b { b } else { a }
}

/// Whether an operator gives a word, and is no skip.
fn writes(op: Op) -> bool
    ensures { result ≡ is_value op }
{
    !matches!(op, Op::Skip | Op::SkipIfFalse | Op::SkipIfTrue)
}

/// The least number of cells among which an instruction finds its own.
fn cells_of_one(instr: Instr) -> usize
    ensures { (n : ℕ) → (result ≤ n) ↔ IsWithin n instr }
{
    let operands = larger(instr.left as usize + 1, instr.right as usize + 1);
    if writes(instr.op) {
        larger(operands, instr.to as usize + 1)
    } else {
        operands
    }
}

/// The least number of cells among which all instructions find theirs.
pub fn cells_of(code: &[Instr]) -> usize
    ensures { (n : ℕ) → (result ≤ n) ↔ AreWithin n code.now }
{
    let mut count = 0;
    let mut i = code.len();
    while 0 < i {
        i -= 1;
        count = larger(cells_of_one(code[i]), count);
    }
    count
}
