ghost use Rattle.std.specs.Prelude.{◌≡◌, ◌<◌, ℕ, List, length};
ghost use Rattle.std.specs.declared.option.Option.{Option};
ghost use Rattle.outside.specs.Sink.{Writes, CountsWrite};

/// What a write took.
#[derive(Clone, Copy, Debug, PartialEq, Eq)]
pub enum WriteAnswer {
    /// This many bytes of the piece's front, at least one, were written.
    Took(usize),
    /// The device failed. Nothing of the piece was written, and the count of faults rose.
    Failed,
}

/// A sink of bytes, as standard output.
pub trait Sink {
    // The bytes that were written, where the sink tells them.
    ghost written: { Self → Option (List ℕ) };

    // How many writes have failed.
    ghost faults: { Self → ℕ };

    /// Writes some bytes from the front of `piece`.
    fn write(&mut self, piece: &[u8]) -> WriteAnswer
        requires { 0 < length piece.now }
        ensures bytes { Writes (written self.old) (written self.new) result piece.now }
        ensures count { CountsWrite (faults self.old) (faults self.new) result };

    /// How many writes have failed. The count never falls, and it stands still at `u64::MAX`.
    fn faults(&self) -> u64
        ensures { result ≡ faults self.now };
}
