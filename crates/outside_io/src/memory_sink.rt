//! A text in memory.
ghost use Rattle.std.specs.Prelude.{◌≡◌, ◌≢◌, ◌<◌, ◌≤◌, Some, length, IfOk};
ghost use Rattle.outside_io.specs.Counts.{Rose};
ghost use Rattle.outside_io.specs.Puts.{Takes};
ghost use Rattle.outside_io.specs.TextInMemory.{after_put, new_sink, put_answer};

use crate::sink::{Put, Sink};
use std::alloc::Global;
use std::marker::Model;
use sync_values::NoMemory;

/// A text in memory, with puts that fail on purpose.
#[derive(Drop)]
pub struct MemSink {
    text: Vec<u8>,
    room: usize,
    chunk: usize,
    failing: Vec<u64>,
    puts: u64,
    faults: u64,
}

impl Model for MemSink {
    ghost use Rattle.std.specs.Prelude.{◌<◌, ◌≤◌, vec_len, vec_capacity};
    ghost use Rattle.outside_io.specs.TextInMemory.{MemorySink};

    ghost Value = { MemorySink };

    ghost view = { λ s. record {
      text = s.text.items;
      room = s.room;
      chunk = s.chunk;
      failing = s.failing.items;
      puts = s.puts;
      faults = s.faults;
    } };

    ghost invariant = { λ s.
        (0 < s.chunk) × (vec_len s.text ≤ s.room) × (s.room ≤ vec_capacity s.text) };
}

impl MemSink {
    /// An empty text with room for `room` bytes, which is taken at once. A put takes at most `chunk`
    /// bytes. The puts whose numbers from 1 are in `failing` fail, and so does a put after which the
    /// text would be longer than the room.
    pub fn new(
        alloc: Global,
        room: usize,
        chunk: usize,
        failing: Vec<u64>,
    ) -> Result<MemSink, NoMemory>
        requires { 0 < chunk }
        ensures { IfOk result (λ s. s ≡ new_sink room chunk failing.items) }
    {
        let text = Vec::with_capacity(alloc, room)?;
        Ok(MemSink {
            text,
            room,
            chunk,
            failing,
            puts: 0,
            faults: 0,
        })
    }

    /// The text so far.
    pub fn text(&self) -> &[u8]
        ensures { result.now ≡ self.now.text }
    {
        self.text.as_slice()
    }
}

impl Sink for MemSink {
    ghost text = { λ s. Some s.text };

    ghost faults = { λ s. s.faults };

    fn put(&mut self, piece: &[u8]) -> Put
        requires { 0 < length piece.now }
        ensures answer { result ≡ put_answer self.old piece.now }
        ensures after { self.new ≡ after_put self.old piece.now }

        // As each sink does.
        ensures takes { Takes piece.now (Some self.old.text) (Some self.new.text) result }
        ensures failed { result ≡ Put.Failed → Rose self.old.faults self.new.faults }
        ensures quiet { result ≢ Put.Failed → self.new.faults ≡ self.old.faults }
        ensures counts { self.old.faults ≤ self.new.faults }
    {
        self.puts = self.puts.saturating_add(1);
        let count = self.chunk.min(piece.len());
        if self.failing.contains(&self.puts) || count > self.room - self.text.len() {
            self.faults = self.faults.saturating_add(1);
            return Put::Failed;
        }
        self.text.extend_from_slice(&piece[..count]).unwrap();
        Put::Taken(count)
    }
}
