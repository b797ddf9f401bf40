ghost use Rattle.std.specs.Prelude.{◌≡◌, ℕ, List};
ghost use Rattle.std.specs.declared.option.Option.{Option};
ghost use Rattle.outside.specs.Files.{Files};
ghost use Rattle.outside.specs.Shelf.{Fetches, CountsFetch, Replaces, CountsReplace, CountsWant};

use pipe_model::Rec;
use std::alloc::Global;

/// What a fetch found.
#[derive(Debug, Drop)]
pub enum Fetched {
    /// The bytes of the file.
    Found(Rec),
    /// There is no file of this name.
    Absent,
    /// The device failed, and the count of faults rose.
    Failed,
    /// Want of memory.
    NoMemory,
}

/// How a file's replacement went.
#[derive(Clone, Copy, Debug, PartialEq, Eq)]
pub enum Replaced {
    /// The file holds the new bytes.
    Stored,
    /// The device failed, and the count of faults rose. What the file holds is open.
    Failed,
    /// Want of memory. What the file holds is open.
    NoMemory,
}

/// Files by their names, which are lists of bytes.
pub trait Shelf {
    // The files, where the shelf tells them.
    ghost files: { Self → Option Files };

    // How many calls have failed.
    ghost faults: { Self → ℕ };

    // How many replacements have wanted memory.
    ghost wants: { Self → ℕ };

    /// A copy of the file of this name.
    fn fetch(&mut self, alloc: Global, name: &[u8]) -> Fetched
        ensures files { Fetches (files self.old) (files self.new) name.now result }
        ensures count { CountsFetch (faults self.old) (faults self.new) result }
        ensures wants { wants self.new ≡ wants self.old };

    /// Puts the bytes in the place of what the file of this name held, or makes the file.
    fn replace(&mut self, alloc: Global, name: &[u8], bytes: &[u8]) -> Replaced
        ensures files { Replaces (files self.old) (files self.new) name.now bytes.now result }
        ensures count { CountsReplace (faults self.old) (faults self.new) result }
        ensures wants { CountsWant (wants self.old) (wants self.new) result };

    /// How many calls have failed. The count never falls, and it stands still at `u64::MAX`.
    fn faults(&self) -> u64
        ensures { result ≡ faults self.now };
}
