ghost use Rattle.std.specs.Prelude.{◌≡◌, ◌+◌, ◌≤◌, ◌++◌, [], ◌∷◌, List, ℕ, codes, length, take};
ghost use Rattle.std.specs.Fmt.{signed_decimal};
ghost use Rattle.stress_sums.specs.Sums.{counted_line, sums_text};

use crate::sums::Sums;
use itoa::Buffer;
use std::marker::Model;

/// Lines of at most 160 bytes in all, without memory of their own.
#[derive(Drop)]
pub struct Lines {
    text: [u8; 160],
    len: usize,
}

impl Model for Lines {
    ghost Value = { List ℕ };

    ghost view = { λ s. take s.len s.text };

    ghost invariant = { λ s. s.len ≤ 160 };
}

/// The four lines of what the run of the stress model of so many members adds up to: `stress N`, `rows A`, `values B`
/// and `sum C`.
#[tactic(auto, unfolding(crate::specs::Sums::sums_text))]
pub fn sums_text(members: u64, sums: Sums) -> Lines
    ensures { result ≡ sums_text members sums }
{
    let mut lines = Lines::new();
    lines.add_counted(b"stress ", members);
    lines.add_counted(b"rows ", sums.rows);
    lines.add_counted(b"values ", sums.values);
    lines.add_sum(sums.sum);
    lines
}

impl Lines {
    fn new() -> Lines
        ensures { result ≡ [] }
    {
        Lines {
            text: [0; 160],
            len: 0,
        }
    }

    /// The bytes of the lines, with their line feeds.
    pub fn bytes(&self) -> &[u8]
        ensures { result.now ≡ self.now }
    {
        &self.text[..self.len]
    }

    fn add_counted(&mut self, word: &[u8], number: u64)
        requires word { length word.now ≤ 7 }
        requires room { length self.old ≤ 84 }
        ensures text { self.new ≡ self.old ++ counted_line word.now number }
        ensures len { length self.new ≤ length self.old + 28 }
    {
        let mut buffer = Buffer::new();
        self.add(word);
        self.add(buffer.format(number).as_bytes());
        self.add(b"\n");
    }

    fn add_sum(&mut self, sum: i128)
        requires { length self.old ≤ 84 }
        ensures { self.new ≡ self.old ++ (codes "sum " ++ signed_decimal sum ++ codes "\n") }
    {
        let mut buffer = Buffer::new();
        self.add(b"sum ");
        self.add(buffer.format(sum).as_bytes());
        self.add(b"\n");
    }

    fn add(&mut self, piece: &[u8])
        requires { length self.old + length piece.now ≤ 160 }
        ensures { self.new ≡ self.old ++ piece.now }
    {
        for byte in piece {
            self.push(*byte);
        }
    }

    fn push(&mut self, byte: u8)
        requires { length self.old + 1 ≤ 160 }
        ensures { self.new ≡ self.old ++ byte ∷ [] }
    {
        self.text[self.len] = byte;
        self.len += 1;
    }
}
