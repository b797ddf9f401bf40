ghost use Rattle.std.specs.Prelude.{◌≡◌, [], IfOk};
ghost use Rattle.collate_stage.specs.declared.lane.At.TheVariants.{Lacking, InSight, Ended};

use pipe_model::NoMemory;
use std::alloc::Global;

/// What is known of an input.
#[derive(Clone, Copy)]
pub enum At {
    /// It is still to be read.
    Lacking,
    /// Its record is in sight.
    InSight,
    /// It has ended.
    Ended,
}

/// An input, with the key of its record while that is in sight.
#[derive(Drop)]
pub struct Lane {
    pub(crate) key: Vec<u8>,
    pub(crate) at: At,
}

impl Lane {
    ghost use Rattle.collate_stage.specs.Lanes.{in_sight};

    // Whether its record is in sight.
    #[inline(always)]
    pub(crate) fn is_in_sight(&self) -> bool
        ensures { result ≡ in_sight self.now.at }
    {
        matches!(self.at, At::InSight)
    }

    // An input that was never read.
    pub(crate) fn new(alloc: Global) -> Lane
        ensures key { result.key.items ≡ [] }
        ensures at { result.at ≡ Lacking }
    {
        Lane {
            key: Vec::new(alloc),
            at: At::Lacking,
        }
    }

    // A record with this key is in sight.
    #[inline(always)]
    pub(crate) fn show(&mut self, key: &[u8]) -> Result<(), NoMemory>
        ensures key { IfOk result (λ _. self.new.key.items ≡ key.now) }
        ensures at { IfOk result (λ _. self.new.at ≡ InSight) }
    {
        self.key.clear();
        self.key.extend_from_slice(key)?;
        self.at = At::InSight;
        Ok(())
    }

    // It has ended.
    pub(crate) fn end(&mut self)
        ensures { self.new.at ≡ Ended }
    {
        self.at = At::Ended;
    }

    // Its record was taken.
    #[inline(always)]
    pub(crate) fn take(&mut self)
        ensures { self.new.at ≡ Lacking }
    {
        self.at = At::Lacking;
    }
}
