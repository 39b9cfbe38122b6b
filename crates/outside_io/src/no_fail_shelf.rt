//! Files in memory that are always read.
ghost use Rattle.std.specs.Prelude.{◌≡◌, ◌<◌, Some, true, length};
ghost use Rattle.outside_io.specs.Counts.{Rose};
ghost use Rattle.outside_io.specs.Files.{known};
ghost use Rattle.outside_io.specs.FilesInMemory.{files_of};
ghost use Rattle.outside_io.specs.NeverFailing.{sure_answer};
ghost use Rattle.outside_io.specs.FileReads.{Gives};

use crate::memory_shelf::{file_of, part_of};
use crate::shelf::{Read, Shelf};
use std::marker::Model;

/// Files in memory, of which no read fails. A name that is not held is an empty file.
#[derive(Drop)]
pub struct NoFailShelf {
    files: Vec<(String, Vec<u8>)>,
}

impl Model for NoFailShelf {
    ghost use Rattle.outside_io.specs.Files.{Files};
    ghost use Rattle.outside_io.specs.FilesInMemory.{files_of};

    ghost Value = { Files };

    ghost view = { λ s. files_of s.files.items };
}

impl NoFailShelf {
    /// Holds the first file of each name.
    pub fn new(files: Vec<(String, Vec<u8>)>) -> NoFailShelf
        ensures { result ≡ files_of files.items }
    {
        NoFailShelf { files }
    }
}

impl Shelf for NoFailShelf {
    ghost held = { λ s. Some s };

    ghost gives_empty = { λ s. true };

    ghost faults = { λ s name. 0 };

    fn read(&mut self, name: &str, at: u64, into: &mut [u8]) -> Read
        requires { 0 < length into.old }
        ensures answer { result ≡ sure_answer self.old name.now at (length into.old) }
        ensures kept { self.new ≡ self.old }

        // As each shelf does.
        ensures gives { Gives (known (Some self.old) true name.now) at into.new result }
        ensures failed { result ≡ Read.Failed → Rose 0 0 }
    {
        let room = into.len();
        match file_of(self.files.as_slice(), name) {
            Some(file) => part_of(file, at, room, into),
            None => Read::End,
        }
    }
}
