ghost use Rattle.std.specs.Prelude.{◌≡◌, ◌<◌, ℕ, List, [], Bool, true, IfOk, IfSome, Option};
ghost use Rattle.pipe_model.specs.Row.{Act};
ghost use Rattle.pipe_model.specs.Shape.{Records, Stream};
ghost use Rattle.stage_steps.specs.Awaits.{PassesWithout};
ghost use Rattle.stage_steps.specs.Lists.{Begins, Sees, Finishes, GivesNext, HandsOver, IsAllFor, IsSpent, Tells, TellsAtEnd, Sifts};

use crate::group::Group;
use crate::sifted::Sifted;
use crate::strings::Sought;
use pipe_model::{NoMemory, Rec};
use std::alloc::Global;

/// What a stage of lists does: a value that has seen some records, and gives the list of pairs that is due group by
/// group, each made as it is asked for. A new list is begun only when the last one was given whole.
pub trait Lists: Sized + Drop {
    /// The value stands, before the end of input or behind it, for this stream of the stage table, these records so far,
    /// and these acts, which are left of the list that it gives now.
    ghost stands: { Self → Bool → Stream → Records → List Act → Type 0 };

    /// It needs the bytes of the records.
    ghost is_looking: { Self → Bool };

    /// The new record that it holds, where it has given it as a group and not yet handed it over.
    ghost made: { Self → Option (List ℕ) };

    /// How many groups are left at most.
    ghost left: { Self → ℕ };

    /// Gives the pairs at the start from now on.
    fn begin(&mut self)
        ensures looks_same { is_looking self.new ≡ is_looking self.old }
        ensures begins { Begins stands self.old self.new };

    /// Gives the pairs of one more record. `bytes` is the record where they are needed, else empty.
    fn see(&mut self, alloc: Global, bytes: &[u8]) -> Result<(), NoMemory>
        ensures looks_same { is_looking self.new ≡ is_looking self.old }
        ensures sees { IfOk result (λ _. Sees stands (is_looking self.old) self.old self.new bytes.now) };

    /// Sees one more record as `see` does. Where all that it gives for it is the record itself, once, or nothing, it may say
    /// so, and has given it. The answer may always be `Gives`.
    #[inline(always)]
    fn sift(&mut self, alloc: Global, bytes: &[u8]) -> Result<Sifted, NoMemory>
        ensures looks_same { is_looking self.new ≡ is_looking self.old }
        ensures sifts { IfOk result (λ sifted. Sifts stands made (is_looking self.old) self.old self.new bytes.now sifted) }
    {
        self.see(alloc, bytes)?;
        Ok(Sifted::Gives)
    }

    /// A string without which it gives a record itself for output 1, as `sift` does, and is then as before. The answer may always
    /// be `None`.
    #[inline(always)]
    fn awaits(&self) -> Option<&Sought>
        ensures { IfSome result (λ string. PassesWithout stands made (is_looking self.now) self.now string.now) }
    {
        None
    }

    /// Gives the pairs at the end of input. It is told of no record from then on.
    fn end(&mut self, alloc: Global) -> Result<(), NoMemory>
        ensures looks_same { is_looking self.new ≡ is_looking self.old }
        ensures finishes { IfOk result (λ _. Finishes stands self.old self.new) };

    /// The next group of the list, or None where nothing is left.
    fn next(&mut self, alloc: Global) -> Result<Option<Group>, NoMemory>
        ensures looks_same { is_looking self.new ≡ is_looking self.old }
        ensures falls { IfOk result (λ given. IfSome given (λ _. left self.new < left self.old)) }
        ensures gives { IfOk result (λ given. GivesNext stands made self.old self.new given) };

    /// Hands over the new record that it holds. It isn't asked for one that it doesn't hold.
    fn hand_over(&mut self, alloc: Global) -> Result<Rec, NoMemory>
        ensures looks_same { is_looking self.new ≡ is_looking self.old }
        ensures hands { IfOk result (λ rec. HandsOver stands made self.old rec self.new) };

    /// Whether nothing is left of the list that it gives now, and the stage goes on behind the record at hand. The answer may
    /// always be `false`.
    fn is_spent(&self) -> bool
        ensures { result ≡ true → IsSpent stands self.now }
    {
        false
    }

    /// The one output for which all is that is left of the list that it gives now. The answer may always be `None`.
    #[inline(always)]
    fn only_output(&self) -> Option<u16>
        ensures { IfSome result (λ output. IsAllFor stands self.now output) }
    {
        None
    }

    /// Whether it ends at the sight of the record at hand.
    fn halts(&self) -> bool
        ensures { Tells stands self.now result (λ t recs. t.halts recs) };

    /// Whether it ends after the record at hand, or before the first record.
    fn stops(&self) -> bool
        ensures { Tells stands self.now result (λ t recs. t.stops recs) };

    /// The code with which it ends. It is asked for behind the end of input, or at a record that ends it.
    fn code(&self) -> i32
        ensures { TellsAtEnd stands self.now result (λ t recs. t.code recs) };

    /// Whether it needs the bytes of the records.
    fn looks(&self) -> bool
        ensures { result ≡ is_looking self.now };
}
