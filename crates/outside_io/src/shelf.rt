//! Files that are read part by part.
ghost use Rattle.std.specs.Prelude.{◌≡◌, ◌≢◌, ◌<◌, ◌≤◌, Bool, List, Option, ℕ, length};
ghost use Rattle.outside_io.specs.Counts.{Rose};
ghost use Rattle.outside_io.specs.Files.{Files, known};
ghost use Rattle.outside_io.specs.FileReads.{Gives};

/// What a read of a file gave.
#[derive(Clone, Copy, PartialEq, Eq)]
pub enum Read {
    /// So many bytes, at least one, at the front of the buffer.
    Bytes(usize),
    /// The place is not below the length of the file.
    End,
    /// A fault, which is counted.
    Failed,
}

/// Files by their names, with the faults of reading them counted.
pub trait Shelf {
    /// The held files, where they are known.
    ghost held: { Self → Option Files };

    /// Names that are not held are read as empty files.
    ghost gives_empty: { Self → Bool };

    /// How often reads of a name failed. A count stops at 2^64-1.
    ghost faults: { Self → List ℕ → ℕ };

    /// Reads bytes of a file from the byte `at` on, counted from 0, into the front of a buffer.
    /// A read of a name that is not held is a fault, unless such names are read as empty files.
    /// A read that does not fail leaves the counts.
    fn read(&mut self, name: &str, at: u64, into: &mut [u8]) -> Read
        requires { 0 < length into.old }
        ensures gives { let file = known (held self.old) (gives_empty self.old) name.now in
            Gives file at into.new result }
        ensures failed { result ≡ Read.Failed →
            Rose (faults self.old name.now) (faults self.new name.now) }
        ensures quiet { result ≢ Read.Failed → (other : List ℕ) → faults self.new other ≡ faults self.old other }
        ensures counts { (other : List ℕ) → faults self.old other ≤ faults self.new other }
        ensures holds { held self.new ≡ held self.old }
        ensures flag { gives_empty self.new ≡ gives_empty self.old };
}
