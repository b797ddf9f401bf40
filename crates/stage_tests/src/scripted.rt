use pipe_model::{NoMemory, Rec, Times};
use stage_steps::{Group, Lists, Repeat};
use std::alloc::Global;

// Lists for trying the driver: the record `b` before, each record so often, and the record `z` on output 1 at the end.
// They stand for no stream, so nothing is owed of them.
#[derive(Drop)]
pub(crate) struct Script {
    pub(crate) each: Times,
    /// It halts at the sight of this record, counted from 1.
    pub(crate) halts_at: u32,
    /// It stops after so many records.
    pub(crate) stops_after: u32,
    pub(crate) seen: u32,
    due: Option<Group>,
    new: Rec,
}

// Before the first record, where it neither halts nor stops.
pub(crate) fn a_script(alloc: Global, each: Times) -> Result<Script, NoMemory> {
    Ok(Script {
        each,
        halts_at: 99,
        stops_after: 99,
        seen: 0,
        due: None,
        new: Rec::from_slice(alloc, b"b")?,
    })
}

impl Lists for Script {
    ghost use Rattle.std.specs.Prelude.{false, Some};
    ghost use Rattle.stage_steps.specs.Waiting.{how_many};

    ghost stands = { λ x over t recs acts. ⊥ };

    ghost is_looking = { λ _. false };

    ghost made = { λ x. Some x.new };

    ghost left = { λ x. how_many x.due };

    fn begin(&mut self) {
        self.due = Some(Group::New(0));
    }

    fn see(&mut self, _alloc: Global, _bytes: &[u8]) -> Result<(), NoMemory> {
        self.seen = self.seen.saturating_add(1);
        self.due = Some(Group::AtHand(Repeat {
            output: 0,
            times: self.each,
        }));
        Ok(())
    }

    fn end(&mut self, alloc: Global) -> Result<(), NoMemory> {
        self.new = Rec::from_slice(alloc, b"z")?;
        self.due = Some(Group::New(1));
        Ok(())
    }

    fn next(&mut self, _alloc: Global) -> Result<Option<Group>, NoMemory> {
        Ok(self.due.take())
    }

    fn hand_over(&mut self, alloc: Global) -> Result<Rec, NoMemory> {
        self.new.copy(alloc)
    }

    fn halts(&self) -> bool {
        self.seen == self.halts_at
    }

    fn stops(&self) -> bool {
        self.seen == self.stops_after
    }

    fn code(&self) -> i32 {
        8
    }

    fn looks(&self) -> bool {
        false
    }
}
