ghost use Rattle.std.specs.Prelude.{◌≡◌, ◌<◌, ℕ, List, length};
ghost use Rattle.std.specs.declared.option.Option.{Option};
ghost use Rattle.outside.specs.Source.{Reads, CountsRead};

/// What a read gave.
#[derive(Clone, Copy, Debug, PartialEq, Eq)]
pub enum ReadAnswer {
    /// This many bytes, at least one, now stand at the front of the room.
    Bytes(usize),
    /// No byte is left.
    End,
    /// The device failed. Nothing was read, and the count of faults rose.
    Failed,
}

/// A source of bytes, as standard input.
pub trait Source {
    // The bytes that are left, where the source tells them.
    ghost left: { Self → Option (List ℕ) };

    // How many reads have failed.
    ghost faults: { Self → ℕ };

    /// Reads some of the bytes that are left into the front of `room`.
    fn read(&mut self, room: &mut [u8]) -> ReadAnswer
        requires { 0 < length room.old }
        ensures bytes { Reads (left self.old) (left self.new) result room.new }
        ensures count { CountsRead (faults self.old) (faults self.new) result };

    /// How many reads have failed. The count never falls, and it stands still at `u64::MAX`.
    fn faults(&self) -> u64
        ensures { result ≡ faults self.now };
}
