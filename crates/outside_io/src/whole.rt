//! Files that are read whole.
ghost use Rattle.std.specs.Prelude.{◌≡◌, ◌≢◌, ◌<◌, ◌≤◌, ◌^◌, List, ℕ, length, IfOk};
ghost use Rattle.outside_io.specs.Counts.{Rose};
ghost use Rattle.outside_io.specs.Files.{known, IsLonger, IsWhole};
ghost use Rattle.outside_io.specs.declared.whole.ReadEnd.TheVariants.{NoMemory};

use crate::shelf::{Read, Shelf};
use std::alloc::{AllocError, Global};
use std::error::Error;
use std::fmt;

/// The most bytes that one read asks for.
const PART_LEN: usize = 16_384;

/// Why a file was not read whole.
#[derive(Clone, Copy, Debug, PartialEq, Eq)]
pub enum ReadEnd {
    /// A read failed.
    Failed,
    /// The file has more bytes than the limit.
    TooLong,
    /// Memory was refused.
    NoMemory,
}

impl fmt::Display for ReadEnd {
    fn fmt<W: fmt::Write>(&self, f: &mut fmt::Formatter<W>) -> fmt::Result {
        match self {
            ReadEnd::Failed => write!(f, "a read failed"),
            ReadEnd::TooLong => write!(f, "the file is too long"),
            ReadEnd::NoMemory => write!(f, "no memory"),
        }
    }
}

impl Error for ReadEnd {}

impl From<AllocError> for ReadEnd {
    ghost from_gives = { λ _ end. end ≡ NoMemory };

    fn from(_error: AllocError) -> ReadEnd {
        ReadEnd::NoMemory
    }
}

/// Reads a file of at most `limit` bytes whole. The first read that fails ends it, so any other end leaves the counts.
pub fn read_whole<S: Shelf>(
    alloc: Global,
    shelf: &mut S,
    name: &str,
    limit: u64,
) -> Result<Vec<u8>, ReadEnd>
    requires { limit < 2 ^ 32 }
    ensures whole { let file = known (S.held shelf.old) (S.gives_empty shelf.old) name.now in
        IfOk result (λ bytes. IsWhole file bytes.items) }
    ensures within { IfOk result (λ bytes. length bytes.items ≤ limit) }
    ensures long { let file = known (S.held shelf.old) (S.gives_empty shelf.old) name.now in
        result ≡ Err ReadEnd.TooLong → IsLonger file limit }
    ensures failed { result ≡ Err ReadEnd.Failed →
        Rose (S.faults shelf.old name.now) (S.faults shelf.new name.now) }
    ensures quiet { result ≢ Err ReadEnd.Failed →
        (other : List ℕ) → S.faults shelf.new other ≡ S.faults shelf.old other }
    ensures counts { (other : List ℕ) → S.faults shelf.old other ≤ S.faults shelf.new other }
    ensures holds { S.held shelf.new ≡ S.held shelf.old }
    ensures flag { S.gives_empty shelf.new ≡ S.gives_empty shelf.old }
{
    let mut bytes = Vec::new(alloc);
    let mut part = [0u8; PART_LEN];
    while bytes.len() as u64 <= limit {
        match shelf.read(name, bytes.len() as u64, &mut part) {
            Read::Bytes(count) => bytes.extend_from_slice(&part[..count])?,
            Read::End => return Ok(bytes),
            Read::Failed => return Err(ReadEnd::Failed),
        }
    }
    Err(ReadEnd::TooLong)
}
