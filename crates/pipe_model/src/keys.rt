ghost use Rattle.std.specs.Prelude.{◌≡◌, List, [], ◌∷◌, ◌++◌, length, OnOk, OnErr};

use crate::memory::NoMemory;
use crate::range::Range;
use smallvec::SmallVec;
use std::alloc::Global;
use std::marker::Model;

/// A range by which SORT compares.
#[derive(Clone, Copy, Default)]
pub struct SortKey {
    pub range: Range,
    pub descending: bool,
}

/// The ranges of a SORT in turn, ten at most, seen as a list.
#[derive(Drop)]
pub struct SortKeys {
    items: SmallVec<SortKey, 10>,
}

impl Model for SortKeys {
    ghost use Rattle.std.specs.Prelude.{List};
    ghost use Rattle.pipe_model.specs.declared.keys.SortKey.{SortKey};

    ghost Value = { List SortKey };

    ghost view = { λ keys. keys.items.items };
}

impl SortKeys {
    /// No range.
    pub fn new(alloc: Global) -> SortKeys
        ensures { result ≡ [] }
    {
        SortKeys {
            items: SmallVec::new(alloc),
        }
    }

    /// Adds a range at the end. After want of memory the ranges are as before.
    pub fn push(&mut self, key: SortKey) -> Result<(), NoMemory>
        ensures ok { OnOk result (self.new ≡ self.old ++ key ∷ []) }
        ensures err { OnErr result (self.new ≡ self.old) }
    {
        self.items.push(key)?;
        Ok(())
    }

    /// The ranges one by one.
    pub fn as_slice(&self) -> &[SortKey]
        ensures { result.now ≡ self.now }
    {
        self.items.as_slice()
    }
}

/// What COUNT counts.
#[derive(Clone, Copy)]
pub enum Total {
    /// Records.
    Lines,
    /// Runs of bytes other than a blank.
    Words,
    /// Bytes, without line ends.
    Bytes,
}

/// What a COUNT counts, in the order in which it tells it, seen as a list.
#[derive(Drop)]
pub struct Totals {
    items: Vec<Total>,
}

impl Model for Totals {
    ghost use Rattle.std.specs.Prelude.{List};
    ghost use Rattle.pipe_model.specs.declared.keys.Total.{Total};

    ghost Value = { List Total };

    ghost view = { λ totals. totals.items.items };
}

impl Totals {
    /// These totals, which takes no memory.
    pub fn from_vec(items: Vec<Total>) -> Totals
        ensures { result ≡ items.items }
    {
        Totals { items }
    }

    /// The totals one by one.
    pub fn as_slice(&self) -> &[Total]
        ensures { result.now ≡ self.now }
    {
        &self.items
    }
}
