ghost use Rattle.std.specs.Prelude.{◌≡◌, ◌<◌, ℕ, List, [], Bool, true, IfOk, IfSome, Option, None};
ghost use Rattle.pipe_model.specs.Row.{Act};
ghost use Rattle.pipe_model.specs.Shape.{Records, Outs};
ghost use Rattle.stage_steps.specs.Lists.{SeesEach, SiftsEach, IsEmpty, GivesNext, HandsOver, always};

use crate::group::Group;
use crate::lists::Lists;
use crate::sifted::Sifted;
use pipe_model::{NoMemory, Rec};
use std::alloc::Global;

/// What a stage does that writes pairs for each record, and nothing at the start or at the end of input, and that goes on
/// for as long as there are records: a value that has seen some records, and gives the pairs of the last group by group.
pub trait EachRecord: Sized + Drop {
    /// The value stands for these pairs of each record, these records so far, and these acts, which are left of the list
    /// that it gives now.
    ghost stands: { Self → Outs → Records → List Act → Type 0 };

    /// It needs the bytes of the records.
    ghost is_looking: { Self → Bool };

    /// The new record that it holds, where it has given it as a group and not yet handed it over.
    ghost made: { Self → Option (List ℕ) } = { λ _. None };

    /// How many groups are left at most.
    ghost left: { Self → ℕ };

    /// Gives the pairs of one more record. `bytes` is the record where they are needed, else empty.
    fn see(&mut self, alloc: Global, bytes: &[u8]) -> Result<(), NoMemory>
        ensures looks_same { is_looking self.new ≡ is_looking self.old }
        ensures sees { IfOk result (λ _. SeesEach stands (is_looking self.old) self.old self.new bytes.now) };

    /// Gives the pairs of one more record as `see` does. Where they are the record itself, once, or none, it may say so, and
    /// has given them. The answer may always be `Gives`.
    #[inline(always)]
    fn sift(&mut self, alloc: Global, bytes: &[u8]) -> Result<Sifted, NoMemory>
        ensures looks_same { is_looking self.new ≡ is_looking self.old }
        ensures sifts { IfOk result (λ sifted. SiftsEach stands made (is_looking self.old) self.old self.new bytes.now sifted) }
    {
        self.see(alloc, bytes)?;
        Ok(Sifted::Gives)
    }

    /// The next group of the list, or None where nothing is left.
    fn next(&mut self) -> Option<Group>
        ensures looks_same { is_looking self.new ≡ is_looking self.old }
        ensures falls { IfSome result (λ _. left self.new < left self.old) }
        ensures gives { GivesNext (always stands) made self.old self.new result };

    /// Hands over the new record that it holds. It isn't asked for one that it doesn't hold.
    fn hand_over(&mut self, alloc: Global) -> Result<Rec, NoMemory>
        ensures looks_same { is_looking self.new ≡ is_looking self.old }
        ensures hands { IfOk result (λ rec. HandsOver (always stands) made self.old rec self.new) };

    /// Whether nothing is left of the list. The answer may always be `false`.
    fn is_spent(&self) -> bool
        ensures { result ≡ true → IsEmpty stands self.now }
    {
        false
    }

    /// Whether it needs the bytes of the records.
    fn looks(&self) -> bool
        ensures { result ≡ is_looking self.now };
}

/// The lists of such a stage.
#[derive(Drop)]
pub struct Each<E: EachRecord> {
    pub each: E,
}

impl<E: EachRecord> Lists for Each<E> {
    ghost use Rattle.stage_steps.specs.Each.{EachStand, each_look};

    ghost stands = { EachStand E.stands };

    ghost is_looking = { each_look E.is_looking };

    ghost made = { λ x. E.made x.each };

    ghost left = { λ x. E.left x.each };

    fn begin(&mut self) {}

    #[inline(always)]
    fn see(&mut self, alloc: Global, bytes: &[u8]) -> Result<(), NoMemory> {
        self.each.see(alloc, bytes)
    }

    #[inline(always)]
    fn sift(&mut self, alloc: Global, bytes: &[u8]) -> Result<Sifted, NoMemory> {
        self.each.sift(alloc, bytes)
    }

    fn end(&mut self, _alloc: Global) -> Result<(), NoMemory> {
        Ok(())
    }

    #[inline(always)]
    fn next(&mut self, _alloc: Global) -> Result<Option<Group>, NoMemory> {
        Ok(self.each.next())
    }

    #[inline(always)]
    fn hand_over(&mut self, alloc: Global) -> Result<Rec, NoMemory> {
        self.each.hand_over(alloc)
    }

    #[inline(always)]
    fn is_spent(&self) -> bool {
        self.each.is_spent()
    }

    #[inline(always)]
    fn halts(&self) -> bool {
        false
    }

    #[inline(always)]
    fn stops(&self) -> bool {
        false
    }

    #[inline(always)]
    fn code(&self) -> i32 {
        0
    }

    fn looks(&self) -> bool {
        self.each.looks()
    }
}
