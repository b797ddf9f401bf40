ghost use Rattle.std.specs.Prelude.{◌≡◌, ◌≤◌, ◌<◌, length, Some};
ghost use Rattle.outside.specs.Source.{Reads, CountsRead};
ghost use Rattle.outside.specs.InMemory.{read_answer, read_room, after_read};

use crate::calls::{is_to_fail, next_call};
use crate::source::{ReadAnswer, Source};
use pipe_model::Rec;
use std::marker::Model;

/// A source over bytes in memory, for tests: it gives at most `piece` bytes a call, and the calls whose numbers,
/// counted from 1, are named beforehand fail.
#[derive(Debug, Drop)]
pub struct MemSource {
    bytes: Rec,
    at: usize,
    piece: usize,
    fails: Vec<u32>,
    calls: u64,
    faults: u64,
}

impl Model for MemSource {
    ghost use Rattle.std.specs.Prelude.{◌≤◌, drop, length};
    ghost use Rattle.outside.specs.InMemory.{SourceState};

    ghost Value = { SourceState };

    ghost view = { λ s. record {
      left = drop s.at s.bytes;
      piece = s.piece;
      fails = s.fails.items;
      calls = s.calls;
      faults = s.faults;
    } };

    ghost invariant = { λ s. (s.at ≤ length s.bytes) × (1 ≤ s.piece) };
}

impl MemSource {
    /// A source of these bytes, none of them read and no call made.
    pub fn new(bytes: Rec, piece: usize, fails: Vec<u32>) -> MemSource
        requires { 1 ≤ piece }
        ensures { result ≡ record {
          left = bytes;
          piece = piece;
          fails = fails.items;
          calls = 0;
          faults = 0;
        } }
    {
        MemSource {
            bytes,
            at: 0,
            piece,
            fails,
            calls: 0,
            faults: 0,
        }
    }
}

impl Source for MemSource {
    ghost left = { λ s. Some s.left };

    ghost faults = { λ s. s.faults };

    fn read(&mut self, room: &mut [u8]) -> ReadAnswer
        requires { 0 < length room.old }
        ensures bytes { Reads (Some self.old.left) (Some self.new.left) result room.new }
        ensures count { CountsRead self.old.faults self.new.faults result }
        ensures answer { result ≡ read_answer self.old (length room.old) }
        ensures room { room.new ≡ read_room self.old room.old }
        ensures after { self.new ≡ after_read self.old (length room.old) }
    {
        self.calls = next_call(self.calls);
        if is_to_fail(&self.fails, self.calls) {
            self.faults = self.faults.saturating_add(1);
            return ReadAnswer::Failed;
        }
        let rest = &self.bytes.bytes()[self.at..];
        if rest.is_empty() {
            return ReadAnswer::End;
        }
        let count = rest.len().min(self.piece).min(room.len());
        room[..count].copy_from_slice(&rest[..count]);
        self.at += count;
        ReadAnswer::Bytes(count)
    }

    fn faults(&self) -> u64 {
        self.faults
    }
}
