ghost use Rattle.std.specs.Prelude.{◌≡◌, ◌<◌, [], length, IfOk, IfSome, OnErr, option_map};
ghost use Rattle.lookup_stage.specs.Masters.{kept, record_of, matched, not_matched, GivesFirst};

use indexmap::IndexMap;
use indexmap::map::IntoValues;
use pipe_model::{NoMemory, Rec};
use std::alloc::Global;
use std::marker::Model;

/// A master, and whether a detail matched it.
#[derive(Drop)]
pub(crate) struct Master {
    rec: Rec,
    is_matched: bool,
}

/// Masters by their keys, in the order in which they came.
#[derive(Drop)]
pub(crate) struct Masters {
    by_key: IndexMap<Vec<u8>, Master>,
}

impl Model for Masters {
    ghost use Rattle.std.specs.Prelude.{List, map};
    ghost use Rattle.lookup_stage.specs.Entry.{Entry};

    ghost Value = { List Entry };

    ghost view = { λ masters. map (λ entry. record { key = entry.0.items; rec = entry.1.rec; is_matched = entry.1.is_matched }) masters.by_key.entries };
}

impl Masters {
    /// No master.
    pub fn new(alloc: Global) -> Masters
        ensures { result ≡ [] }
    {
        Masters {
            by_key: IndexMap::new(alloc),
        }
    }

    /// Keeps a copy of a master, if none with its key is kept.
    pub fn keep(&mut self, alloc: Global, key: &[u8], rec: &[u8]) -> Result<(), NoMemory>
        ensures { IfOk result (λ _. self.new ≡ kept key.now rec.now self.old) }
    {
        if !self.by_key.contains_key(key) {
            let master = Master {
                rec: Rec::from_slice(alloc, rec)?,
                is_matched: false,
            };
            self.by_key.insert(Vec::from_slice(alloc, key)?, master)?;
        }
        Ok(())
    }

    /// A copy of the master with this key, which a detail matches from now on.
    pub fn match_key(&mut self, alloc: Global, key: &[u8]) -> Result<Option<Rec>, NoMemory>
        ensures found { IfOk result (λ master. master ≡ record_of key.now self.old) }
        ensures matches { IfOk result (λ _. self.new ≡ matched key.now self.old) }
    {
        let Some(number) = self.by_key.get_index_of(key) else {
            return Ok(None);
        };
        let master = &mut self.by_key[number];
        let rec = master.rec.copy(alloc)?;
        master.is_matched = true;
        Ok(Some(rec))
    }

    /// The masters that no detail matched.
    pub fn into_unmatched(self) -> Unmatched
        ensures { result ≡ not_matched self }
    {
        Unmatched {
            masters: self.by_key.into_values(),
        }
    }
}

/// Masters of which those that no detail matched are given, in order.
#[derive(Drop)]
pub(crate) struct Unmatched {
    masters: IntoValues<Vec<u8>, Master>,
}

impl Model for Unmatched {
    ghost use Rattle.std.specs.Prelude.{List, ℕ, map, filter, not};

    ghost Value = { List (List ℕ) };

    ghost view = { λ left. map (λ master. master.rec) (filter (λ master. not master.is_matched) left.masters) };
}

impl Unmatched {
    /// Takes out the next one.
    pub fn next(&mut self) -> Option<Rec>
        ensures gives { GivesFirst self.old result self.new }
        ensures falls { IfSome result (λ _. length self.new < length self.old) }
    {
        while let Some(master) = self.masters.next() {
            if !master.is_matched {
                return Some(master.rec);
            }
        }
        None
    }
}
