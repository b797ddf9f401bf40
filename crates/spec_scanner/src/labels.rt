ghost use Rattle.std.specs.Prelude.{◌≡◌, ◌+◌, ◌<◌, ◌^◌, suc, [], ◌∷◌, ◌++◌, length, IfSome, None, OnOk, OnErr};
ghost use Rattle.spec_scanner.specs.Labels.{number_of, used, uses_of};

use indexmap::IndexMap;
use pipe_model::NoMemory;
use std::alloc::Global;
use std::marker::Model;

/// The labels that are defined, in the order of their definitions, each with its later uses.
#[derive(Drop)]
pub(crate) struct Labels {
    uses: IndexMap<Vec<u8>, u16>,
}

impl Model for Labels {
    ghost use Rattle.std.specs.Prelude.{List, map};
    ghost use Rattle.spec_scanner.specs.Labels.{Label};

    ghost Value = { List Label };

    ghost view = { λ labels. map (λ entry. record { name = entry.0.items; uses = entry.1 }) labels.uses.entries };
}

impl Labels {
    /// No label.
    pub fn new(alloc: Global) -> Labels
        ensures { result ≡ [] }
    {
        Labels {
            uses: IndexMap::new(alloc),
        }
    }

    /// How many labels there are.
    pub fn len(&self) -> usize
        ensures { result ≡ length self.now }
    {
        self.uses.len()
    }

    /// The number of a label.
    pub fn number_of(&self, name: &[u8]) -> Option<usize>
        ensures number { result ≡ number_of self.now name.now }
        ensures within { IfSome result (λ number. number < length self.now) }
    {
        self.uses.get_index_of(name)
    }

    /// Adds a label that isn't there. After want of memory the labels are as before.
    pub fn define(&mut self, name: Vec<u8>) -> Result<(), NoMemory>
        requires { number_of self.old name.items ≡ None }
        ensures ok { OnOk result (self.new ≡ self.old ++ record { name = name.items; uses = 0 } ∷ []) }
        ensures err { OnErr result (self.new ≡ self.old) }
    {
        self.uses.insert(name, 0)?;
        Ok(())
    }

    /// Counts one more use of a label, and gives the count.
    pub fn use_of(&mut self, number: usize) -> u16
        requires within { number < length self.old }
        requires few { suc (uses_of self.old number) < 2 ^ 16 }
        ensures count { result ≡ suc (uses_of self.old number) }
        ensures used { self.new ≡ used self.old number }
    {
        let count = self.uses[number] + 1;
        self.uses[number] = count;
        count
    }
}
