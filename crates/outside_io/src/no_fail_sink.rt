//! An output that always takes what is put.
ghost use Rattle.std.specs.Prelude.{◌≡◌, ◌+◌, ◌-◌, ◌^◌, ◌<◌, None, length, min};
ghost use Rattle.outside_io.specs.Counts.{Rose};
ghost use Rattle.outside_io.specs.Puts.{Takes};

use crate::sink::{Put, Sink};
use std::marker::Model;

/// An output that takes every piece whole and keeps no text of it, only the number of its bytes.
#[derive(Drop)]
pub struct NoFailSink {
    bytes: u64,
}

impl Model for NoFailSink {
    ghost use Rattle.std.specs.Prelude.{ℕ};

    ghost Value = { ℕ };

    ghost view = { λ s. s.bytes };
}

impl NoFailSink {
    /// An output on which nothing was put yet.
    pub fn new() -> NoFailSink
        ensures { result ≡ 0 }
    {
        NoFailSink { bytes: 0 }
    }

    /// The number of bytes so far. It stops at 2^64-1.
    pub fn bytes(&self) -> u64
        ensures { result ≡ self.now }
    {
        self.bytes
    }
}

impl Sink for NoFailSink {
    ghost text = { λ s. None };

    ghost faults = { λ s. 0 };

    fn put(&mut self, piece: &[u8]) -> Put
        requires { 0 < length piece.now }
        ensures answer { result ≡ Put.Taken (length piece.now) }
        ensures after { self.new ≡ min (self.old + length piece.now) (2 ^ 64 - 1) }

        // As each sink does.
        ensures takes { Takes piece.now None None result }
        ensures failed { result ≡ Put.Failed → Rose 0 0 }
    {
        self.bytes = self.bytes.saturating_add(piece.len() as u64);
        Put::Taken(piece.len())
    }
}
