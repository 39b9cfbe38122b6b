//! The files, the standard output and the standard error of the machine. What they give and receive
//! is not told, and no more is known of it than the counts that the machine reports.
ghost use Rattle.std.specs.Prelude.{◌≡◌, ◌≢◌, ◌<◌, ◌≤◌, None, false, List, ℕ, length, IfOk};
ghost use Rattle.outside_io.specs.Counts.{Rose};
ghost use Rattle.outside_io.specs.Files.{Unknown};
ghost use Rattle.outside_io.specs.Puts.{Takes, faults_after_put};
ghost use Rattle.outside_io.specs.FileReads.{Gives, faults_after_read};

use crate::shelf::{Read, Shelf};
use crate::sink::{Put, Sink};
use std::io::{Read as _, Seek, SeekFrom, Write};
use std::marker::Model;
use std::rt::Files;
use std::{fs, io};

/// The files of the machine. A read that the machine refuses is a fault, and one count of faults
/// serves every name.
#[derive(Drop)]
pub struct FileShelf<'a, R: Files> {
    rt: &'a R,
    faults: u64,
}

impl<'a, R: Files> Model for FileShelf<'a, R> {
    ghost Value = { ℕ };

    ghost view = { λ s. s.faults };
}

impl<'a, R: Files> FileShelf<'a, R> {
    /// The files that this runtime reaches, with no fault counted yet.
    pub fn new(rt: &'a R) -> FileShelf<'a, R>
        ensures { result ≡ 0 }
    {
        FileShelf { rt, faults: 0 }
    }
}

impl<'a, R: Files> Shelf for FileShelf<'a, R> {
    ghost held = { λ s. None };

    ghost gives_empty = { λ s. false };

    ghost faults = { λ s name. s };

    fn read(&mut self, name: &str, at: u64, into: &mut [u8]) -> Read
        requires { 0 < length into.old }
        ensures count { self.new ≡ faults_after_read self.old result }

        // As each shelf does.
        ensures gives { Gives Unknown at into.new result }
        ensures failed { result ≡ Read.Failed → Rose self.old self.new }
        ensures quiet { result ≢ Read.Failed → (other : List ℕ) → self.new ≡ self.old }
        ensures counts { (other : List ℕ) → self.old ≤ self.new }
    {
        match read_at(self.rt, name, at, into) {
            Ok(0) => Read::End,
            Ok(count) => Read::Bytes(count),
            Err(_) => {
                self.faults = self.faults.saturating_add(1);
                Read::Failed
            }
        }
    }
}

/// Reads from a place of a file on. No file is kept open, so that a shelf takes no memory.
fn read_at<R: Files>(rt: &R, name: &str, at: u64, into: &mut [u8]) -> io::Result<usize>
    ensures { IfOk result (λ count. count ≤ length into.new) }
{
    let mut file = fs::open(rt, name)?;
    file.seek(SeekFrom::Start(at))?;
    file.read(into)
}

/// An output of the machine. A write that fails, or that takes nothing, is a fault.
#[derive(Drop)]
pub struct WriteSink<W: Write + Drop> {
    inner: W,
    faults: u64,
}

/// The standard output of the machine.
pub type OutSink<W> = WriteSink<W>;

/// The standard error of the machine.
pub type ErrSink<W> = WriteSink<W>;

impl<W: Write + Drop> Model for WriteSink<W> {
    ghost Value = { ℕ };

    ghost view = { λ s. s.faults };
}

impl<W: Write + Drop> WriteSink<W> {
    /// Writes to the output that is passed as `inner`. No fault is counted yet.
    pub fn new(inner: W) -> WriteSink<W>
        ensures { result ≡ 0 }
    {
        WriteSink { inner, faults: 0 }
    }
}

impl<W: Write + Drop> Sink for WriteSink<W> {
    ghost text = { λ s. None };

    ghost faults = { λ s. s };

    fn put(&mut self, piece: &[u8]) -> Put
        requires { 0 < length piece.now }
        ensures count { self.new ≡ faults_after_put self.old result }

        // As each sink does.
        ensures takes { Takes piece.now None None result }
        ensures failed { result ≡ Put.Failed → Rose self.old self.new }
        ensures quiet { result ≢ Put.Failed → self.new ≡ self.old }
        ensures counts { self.old ≤ self.new }
    {
        match self.inner.write(piece) {
            Ok(count) if count > 0 => Put::Taken(count),
            _ => {
                self.faults = self.faults.saturating_add(1);
                Put::Failed
            }
        }
    }
}
