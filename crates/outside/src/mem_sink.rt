ghost use Rattle.std.specs.Prelude.{◌≡◌, ◌≤◌, ◌<◌, length, [], Some, IfOk};
ghost use Rattle.outside.specs.Sink.{Writes, CountsWrite};
ghost use Rattle.outside.specs.InMemory.{write_answer, after_write};

use crate::calls::{is_to_fail, next_call};
use crate::sink::{Sink, WriteAnswer};
use pipe_model::NoMemory;
use std::alloc::Global;
use std::marker::Model;

/// A sink that keeps its bytes in memory, for tests: it takes at most `piece` bytes a call and `room` bytes in
/// all, and the calls whose numbers, counted from 1, are named beforehand fail.
#[derive(Debug, Drop)]
pub struct MemSink {
    bytes: Vec<u8>,
    room: usize,
    piece: usize,
    fails: Vec<u32>,
    calls: u64,
    faults: u64,
}

impl Model for MemSink {
    ghost use Rattle.std.specs.Prelude.{◌≤◌, vec_len, vec_capacity};
    ghost use Rattle.outside.specs.InMemory.{SinkState};

    ghost Value = { SinkState };

    ghost view = { λ s. record {
      written = s.bytes.items;
      room = s.room;
      piece = s.piece;
      fails = s.fails.items;
      calls = s.calls;
      faults = s.faults;
    } };

    ghost invariant = { λ s. (vec_len s.bytes ≤ s.room) × (s.room ≤ vec_capacity s.bytes) × (1 ≤ s.piece) };
}

impl MemSink {
    /// A sink that holds no byte and has had no call. The memory for all of `room` is taken here, so that a
    /// write takes none.
    pub fn new(
        alloc: Global,
        room: usize,
        piece: usize,
        fails: Vec<u32>,
    ) -> Result<MemSink, NoMemory>
        requires { 1 ≤ piece }
        ensures { IfOk result (λ sink. sink ≡ record {
          written = [];
          room = room;
          piece = piece;
          fails = fails.items;
          calls = 0;
          faults = 0;
        }) }
    {
        Ok(MemSink {
            bytes: Vec::with_capacity(alloc, room)?,
            room,
            piece,
            fails,
            calls: 0,
            faults: 0,
        })
    }

    /// The bytes that were written.
    pub fn written(&self) -> &[u8]
        ensures { result.now ≡ self.now.written }
    {
        &self.bytes
    }
}

impl Sink for MemSink {
    ghost written = { λ s. Some s.written };

    ghost faults = { λ s. s.faults };

    fn write(&mut self, piece: &[u8]) -> WriteAnswer
        requires { 0 < length piece.now }
        ensures bytes { Writes (Some self.old.written) (Some self.new.written) result piece.now }
        ensures count { CountsWrite self.old.faults self.new.faults result }
        ensures answer { result ≡ write_answer self.old (length piece.now) }
        ensures after { self.new ≡ after_write self.old piece.now }
    {
        self.calls = next_call(self.calls);
        let free = self.room - self.bytes.len();
        if is_to_fail(&self.fails, self.calls) || free == 0 {
            self.faults = self.faults.saturating_add(1);
            return WriteAnswer::Failed;
        }
        let count = piece.len().min(self.piece).min(free);
        self.bytes.extend_from_slice(&piece[..count]).unwrap();
        WriteAnswer::Took(count)
    }

    fn faults(&self) -> u64 {
        self.faults
    }
}
