ghost use Rattle.std.specs.Prelude.{◌≡◌, ◌&&◌, nat_lt};
ghost use Rattle.pipe_model.specs.Keys as Spec;

use pipe_model::{NoMemory, Range};
use stage_steps::{is_same, part_of};
use std::alloc::Global;

/// The run at hand: records of equal key one behind the other.
#[derive(Drop)]
pub struct Run {
    range: Range,
    /// How many records it has. It has none before the first record.
    count: u64,
    /// The key of its records, in a buffer that is kept for the next run's.
    key: Vec<u8>,
}

impl Run {
    ghost use Rattle.std.specs.Prelude.{◌≡◌, ◌<◌, [], IfOk};
    ghost use Rattle.unique_sort.specs.Runs.{RunSoFar, goes_on, run_with, IsRunOf};

    // The run of keys in this range, before the first record.
    pub(crate) fn new(alloc: Global, range: Range) -> Run
        ensures range { result.range ≡ range }
        ensures none { IsRunOf result (0, []) }
    {
        Run {
            range,
            count: 0,
            key: Vec::new(alloc),
        }
    }

    // How many records it has.
    pub(crate) fn count(&self) -> u64
        ensures { result ≡ self.now.count }
    {
        self.count
    }

    // Whether it has records of this key.
    fn is_of(&self, key: &[u8]) -> bool
        ensures { result ≡ (nat_lt 0 self.now.count && Spec.is_same self.now.key.items key.now) }
    {
        self.count > 0 && is_same(&self.key, key)
    }

    // Adds one more record, and tells whether it belongs to it. Else the next run begins with it.
    pub(crate) fn add(&mut self, rec: &[u8]) -> Result<bool, NoMemory>
        ensures range { IfOk result (λ _. self.new.range ≡ self.old.range) }
        ensures added { IfOk result (λ belongs. (run : RunSoFar) → run.0 < 50000000 → IsRunOf self.old run → (belongs ≡ goes_on self.old.range run rec.now) × IsRunOf self.new (run_with self.old.range run rec.now)) }
    {
        let key = part_of(self.range, rec);
        if self.is_of(key) {
            self.count = self.count.saturating_add(1);
            return Ok(true);
        }
        self.key.clear();
        self.key.extend_from_slice(key)?;
        self.count = 1;
        Ok(false)
    }
}
