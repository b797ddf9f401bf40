ghost use Rattle.std.specs.Prelude.{◌≡◌, Bool, if◌then◌else◌, IfSome};
ghost use Rattle.pipe_model.specs.Shape.{Records};
ghost use Rattle.select_stages.specs.Picks.{Choice, PicksNext, RejectsWithout, Says};

use pipe_model::{NoMemory, Rec};
use stage_steps::{Group, Lists, Sifted, Sought, take_waiting};
use std::alloc::Global;

/// What a stage does that writes each record on output 0, where it selects it, or else on output 1: a value that has
/// seen some records, and says of one more whether it is selected.
pub trait Picks: Sized + Drop {
    /// The value stands for this choice and these records so far.
    ghost stands: { Self → Choice → Records → Type 0 };

    /// It needs the bytes of the records.
    ghost is_looking: { Self → Bool };

    /// Whether it selects one more record. `bytes` is the record where they are needed, else empty.
    fn pick(&mut self, bytes: &[u8]) -> bool
        ensures looks_same { is_looking self.new ≡ is_looking self.old }
        ensures picks { PicksNext stands (is_looking self.old) self.old self.new bytes.now result };

    /// A string without which it doesn't select a record, and is then as before.
    #[inline(always)]
    fn awaits(&self) -> Option<&Sought>
        ensures { IfSome result (λ string. RejectsWithout stands (is_looking self.now) self.now string.now) }
    {
        None
    }

    /// Whether it ends at the sight of the record at hand.
    fn halts(&self) -> bool
        ensures { Says stands self.now result (λ choice recs. choice.halts recs) };

    /// Whether it ends after the record at hand, or before the first record.
    fn stops(&self) -> bool
        ensures { Says stands self.now result (λ choice recs. choice.stops recs) };

    /// Whether it needs the bytes of the records.
    fn looks(&self) -> bool
        ensures { result ≡ is_looking self.now };
}

/// Selects the records that the other rejects, and rejects those that it selects: NLOCATE, and DROP FIRST of TAKE FIRST.
#[derive(Drop)]
pub struct Rejects<P: Picks> {
    pub(crate) picks: P,
}

impl<P: Picks> Picks for Rejects<P> {
    ghost use Rattle.select_stages.specs.PickLists.{RejectsStand, rejects_look};

    ghost stands = { RejectsStand P.stands };

    ghost is_looking = { rejects_look P.is_looking };

    #[inline(always)]
    fn pick(&mut self, bytes: &[u8]) -> bool {
        !self.picks.pick(bytes)
    }

    #[inline(always)]
    fn halts(&self) -> bool {
        self.picks.halts()
    }

    #[inline(always)]
    fn stops(&self) -> bool {
        self.picks.stops()
    }

    fn looks(&self) -> bool {
        self.picks.looks()
    }
}

/// The lists of such a stage: one pair for each record.
#[derive(Drop)]
pub struct Picked<P: Picks> {
    pub(crate) picks: P,
    /// The output on which the record at hand is still to be written.
    pub(crate) waiting: Option<u16>,
}

// The output of a record.
#[inline(always)]
fn output(selected: bool) -> u16
    ensures { result ≡ (if selected then 0 else 1) }
{
    if selected { 0 } else { 1 }
}

impl<P: Picks> Lists for Picked<P> {
    ghost use Rattle.std.specs.Prelude.{None};
    ghost use Rattle.stage_steps.specs.Waiting.{how_many};
    ghost use Rattle.select_stages.specs.PickLists.{PickedStand, picked_look};

    ghost stands = { PickedStand P.stands };

    ghost is_looking = { picked_look P.is_looking };

    ghost made = { λ _. None };

    ghost left = { λ x. how_many x.waiting };

    fn begin(&mut self) {}

    #[inline(always)]
    fn see(&mut self, _alloc: Global, bytes: &[u8]) -> Result<(), NoMemory> {
        self.waiting = Some(output(self.picks.pick(bytes)));
        Ok(())
    }

    #[inline(always)]
    fn sift(&mut self, _alloc: Global, bytes: &[u8]) -> Result<Sifted, NoMemory> {
        let output = output(self.picks.pick(bytes));
        if self.picks.halts() || self.picks.stops() {
            self.waiting = Some(output);
            return Ok(Sifted::Gives);
        }
        self.waiting = None;
        Ok(Sifted::Passes(output))
    }

    #[inline(always)]
    fn awaits(&self) -> Option<&Sought> {
        if self.waiting.is_some() || self.picks.halts() || self.picks.stops() {
            return None;
        }
        self.picks.awaits()
    }

    fn end(&mut self, _alloc: Global) -> Result<(), NoMemory> {
        Ok(())
    }

    #[inline(always)]
    fn next(&mut self, _alloc: Global) -> Result<Option<Group>, NoMemory> {
        Ok(take_waiting(&mut self.waiting))
    }

    fn hand_over(&mut self, alloc: Global) -> Result<Rec, NoMemory> {
        Ok(Rec::from_vec(Vec::new(alloc)))
    }

    #[inline(always)]
    fn is_spent(&self) -> bool {
        self.waiting.is_none() && !self.picks.stops()
    }

    #[inline(always)]
    fn halts(&self) -> bool {
        self.picks.halts()
    }

    #[inline(always)]
    fn stops(&self) -> bool {
        self.picks.stops()
    }

    #[inline(always)]
    fn code(&self) -> i32 {
        0
    }

    fn looks(&self) -> bool {
        self.picks.looks()
    }
}
