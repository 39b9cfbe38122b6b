//! Files in memory.
ghost use Rattle.std.specs.Prelude.{◌≡◌, ◌≢◌, ◌<◌, ◌≤◌, List, ℕ, Some, false, length, min, option_map};
ghost use Rattle.outside_io.specs.Counts.{Rose};
ghost use Rattle.outside_io.specs.Files.{File, first_named, known};
ghost use Rattle.outside_io.specs.FilesInMemory.{after_read, faults_of, files_of, new_shelf, part_of_file, read_answer};
ghost use Rattle.outside_io.specs.FileReads.{Gives};

use crate::shelf::{Read, Shelf};
use std::marker::Model;

/// Files in memory, with reads that fail on purpose.
#[derive(Drop)]
pub struct MemShelf {
    files: Vec<(String, Vec<u8>)>,
    chunk: usize,
    failing: Vec<u64>,
    reads: u64,
    listed: u64,
    unheld: u64,
}

impl Model for MemShelf {
    ghost use Rattle.std.specs.Prelude.{◌<◌};
    ghost use Rattle.outside_io.specs.FilesInMemory.{MemoryShelf, files_of};

    ghost Value = { MemoryShelf };

    ghost view = { λ s. record {
      files = files_of s.files.items;
      chunk = s.chunk;
      failing = s.failing.items;
      reads = s.reads;
      listed = s.listed;
      unheld = s.unheld;
    } };

    ghost invariant = { λ s. 0 < s.chunk };
}

impl MemShelf {
    /// Holds the first file of each name. A read gives at most `chunk` bytes, and the reads whose
    /// numbers from 1 are in `failing` fail.
    pub fn new(files: Vec<(String, Vec<u8>)>, chunk: usize, failing: Vec<u64>) -> MemShelf
        requires { 0 < chunk }
        ensures { result ≡ new_shelf (files_of files.items) chunk failing.items }
    {
        MemShelf {
            files,
            chunk,
            failing,
            reads: 0,
            listed: 0,
            unheld: 0,
        }
    }
}

impl Shelf for MemShelf {
    ghost held = { λ s. Some s.files };

    ghost gives_empty = { λ s. false };

    ghost faults = { faults_of };

    fn read(&mut self, name: &str, at: u64, into: &mut [u8]) -> Read
        requires { 0 < length into.old }
        ensures answer { result ≡ read_answer self.old name.now at (length into.old) }
        ensures after { self.new ≡ after_read self.old name.now }

        // As each shelf does.
        ensures gives { Gives (known (Some self.old.files) false name.now) at into.new result }
        ensures failed { result ≡ Read.Failed →
            Rose (faults_of self.old name.now) (faults_of self.new name.now) }
        ensures quiet { result ≢ Read.Failed → (other : List ℕ) → faults_of self.new other ≡ faults_of self.old other }
        ensures counts { (other : List ℕ) → faults_of self.old other ≤ faults_of self.new other }
        ensures holds { Some self.new.files ≡ Some self.old.files }
    {
        self.reads = self.reads.saturating_add(1);
        let file = file_of(self.files.as_slice(), name);
        if file.is_none() {
            self.unheld = self.unheld.saturating_add(1);
        }
        if self.failing.contains(&self.reads) {
            self.listed = self.listed.saturating_add(1);
            return Read::Failed;
        }
        match file {
            Some(file) => part_of(file, at, self.chunk, into),
            None => Read::Failed,
        }
    }
}

/// The first file of a name.
pub(crate) fn file_of<'a>(files: &'a [(String, Vec<u8>)], name: &str) -> Option<&'a [u8]>
    ensures { option_map (λ file. file.now) result ≡ first_named name.now (files_of files.entry.now) }
{
    for file in files {
        if file.0.as_str() == name {
            return Some(file.1.as_slice());
        }
    }
    None
}

/// At most `chunk` bytes of a file from a place on.
pub(crate) fn part_of(file: &[u8], at: u64, chunk: usize, into: &mut [u8]) -> Read
    requires chunk { 0 < chunk }
    requires room { 0 < length into.old }
    ensures gives { Gives (File file.now) at into.new result }
    ensures answer { result ≡ part_of_file at (min chunk (length into.old)) (Some file.now) }
{
    let start = at as usize;
    if start >= file.len() {
        return Read::End;
    }
    let count = chunk.min(into.len()).min(file.len() - start);
    into[..count].copy_from_slice(&file[start..start + count]);
    Read::Bytes(count)
}
