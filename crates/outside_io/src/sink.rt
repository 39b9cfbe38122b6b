//! Text that grows piece by piece.
ghost use Rattle.std.specs.Prelude.{◌≡◌, ◌≢◌, ◌<◌, ◌≤◌, [], List, ℕ, Option, length, IsOk, OnOk, OnErr};
ghost use Rattle.outside_io.specs.Counts.{Rose};
ghost use Rattle.outside_io.specs.Puts.{Takes};
ghost use Rattle.outside_io.specs.Texts.{grown, GrewByPrefix};

use std::error::Error;
use std::fmt;

/// How much of a piece a sink took.
#[derive(Clone, Copy)]
pub enum Put {
    /// So many of the first bytes of the piece, at least one.
    Taken(usize),
    /// A fault, which is counted. Nothing of the piece was taken.
    Failed,
}

/// A put failed, so not the whole of a piece was put.
#[derive(Clone, Copy, Debug, PartialEq, Eq)]
pub struct WriteFailed;

impl fmt::Display for WriteFailed {
    fn fmt<W: fmt::Write>(&self, f: &mut fmt::Formatter<W>) -> fmt::Result {
        write!(f, "a write failed")
    }
}

impl Error for WriteFailed {}

/// A text that grows, with the faults of writing it counted.
pub trait Sink {
    /// The text so far, where it is known.
    ghost text: { Self → Option (List ℕ) };

    /// How often puts failed. The count stops at 2^64-1.
    ghost faults: { Self → ℕ };

    /// Puts the first bytes of a piece at the end of the text. A put that does not fail leaves the count.
    fn put(&mut self, piece: &[u8]) -> Put
        requires { 0 < length piece.now }
        ensures takes { Takes piece.now (text self.old) (text self.new) result }
        ensures failed { result ≡ Put.Failed → Rose (faults self.old) (faults self.new) }
        ensures quiet { result ≢ Put.Failed → faults self.new ≡ faults self.old }
        ensures counts { faults self.old ≤ faults self.new };
}

/// Puts a whole piece, by as many puts as it takes: none for an empty piece. It stops at the first
/// put that fails, so a piece that is put whole leaves the count.
#[tactic(auto, using(crate::proofs::Growth::growing))]
pub fn put_all<O: Sink>(sink: &mut O, piece: &[u8]) -> Result<(), WriteFailed>
    ensures ok { OnOk result (O.text sink.new ≡ grown piece.now (O.text sink.old)) }
    ensures err { OnErr result (GrewByPrefix piece.now (O.text sink.old) (O.text sink.new)) }
    ensures failed { OnErr result (Rose (O.faults sink.old) (O.faults sink.new)) }
    ensures quiet { OnOk result (O.faults sink.new ≡ O.faults sink.old) }
    ensures counts { O.faults sink.old ≤ O.faults sink.new }
    ensures empty { piece.now ≡ [] → IsOk result × (sink.new ≡ sink.old) }
{
    let mut done = 0;
    while done < piece.len() {
        match sink.put(&piece[done..]) {
            Put::Taken(count) => done += count,
            Put::Failed => return Err(WriteFailed),
        }
    }
    Ok(())
}
