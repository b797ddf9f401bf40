ghost use Rattle.std.specs.Prelude.{◌≡◌, ◌≢◌, ◌<◌, ◌≤◌, ◌/◌, ℕ, MatchOption, IfOk, IfSome, true, false};
ghost use Rattle.core_machine.specs.Members.{Members, is_member, IsLeast, HasBits};

use crate::bits::Bits;
use pipe_model::NoMemory;
use std::alloc::Global;
use std::marker::Model;

/// A set of numbers below a size, for the strands that may be ready.
#[derive(Drop)]
pub struct Ready {
    size: u32,
    members: Bits,
    // which words of the members aren't 0
    summary: Bits,
}

impl Model for Ready {
    ghost use Rattle.core_machine.specs.Members.{Members, HasBits};

    ghost Value = { Members };

    ghost view = { λ ready. record { size = ready.size; words = ready.members } };

    ghost invariant = { λ ready. HasBits ready.size ready.members ready.summary };
}

impl Ready {
    /// The empty set.
    pub fn new(alloc: Global, size: u32) -> Result<Ready, NoMemory>
        ensures size { IfOk result (λ ready. ready.size ≡ size) }
        ensures empty { IfOk result (λ ready. (t : ℕ) → is_member ready t ≡ false) }
    {
        let words = (size / 64 + 1) as usize;
        Ok(Ready {
            size,
            members: Bits::new(alloc, words)?,
            summary: Bits::new(alloc, words / 64 + 1)?,
        })
    }

    /// The size: all members are below it.
    pub fn size(&self) -> u32
        ensures size { result ≡ self.now.size }
        ensures inside { (t : ℕ) → self.now.size ≤ t → is_member self.now t ≡ false }
    {
        self.size
    }

    /// Puts a strand in.
    pub fn insert(&mut self, strand: u32)
        requires { strand < self.old.size }
        ensures here { is_member self.new strand ≡ true }
        ensures others { (t : ℕ) → t ≢ strand → is_member self.new t ≡ is_member self.old t }
        ensures size { self.new.size ≡ self.old.size }
    {
        // Most often it is there.
        if !self.members.holds(strand) {
            self.insert_new(strand);
        }
    }

    // Puts a strand in that may not be there.
    #[cold]
    #[inline(never)]
    fn insert_new(&mut self, strand: u32)
        requires { strand < self.old.size }
        ensures here { is_member self.new strand ≡ true }
        ensures others { (t : ℕ) → t ≢ strand → is_member self.new t ≡ is_member self.old t }
        ensures size { self.new.size ≡ self.old.size }
    {
        self.members.insert(strand);
        self.summary.insert(strand / 64);
    }

    /// Puts all strands in: some word writes, as long as the set is.
    pub fn insert_all(&mut self)
        ensures all { (t : ℕ) → t < self.old.size → is_member self.new t ≡ true }
        ensures more { (t : ℕ) → is_member self.old t ≡ true → is_member self.new t ≡ true }
        ensures size { self.new.size ≡ self.old.size }
    {
        self.members.fill(self.size);
        self.summary.fill(self.size.div_ceil(64));
    }

    /// Takes a strand out.
    pub fn remove(&mut self, strand: u32)
        requires { strand < self.old.size }
        ensures here { is_member self.new strand ≡ false }
        ensures others { (t : ℕ) → t ≢ strand → is_member self.new t ≡ is_member self.old t }
        ensures size { self.new.size ≡ self.old.size }
    {
        self.members.remove(strand);
        if self.members.word_in((strand / 64) as usize) == 0 {
            self.summary.remove(strand / 64);
        }
    }

    /// The least strand of the set: a look along the summary, a word for each 4,096 of the size, then at one word.
    pub fn least(&self) -> Option<u32>
        ensures inside { IfSome result (λ strand. strand < self.now.size) }
        ensures least { MatchOption result ((t : ℕ) → is_member self.now t ≡ false) (λ strand. IsLeast self.now strand) }
    {
        let k = self.summary.least()?;
        let word = self.members.word_in(k as usize);
        Some(64 * k + word.trailing_zeros())
    }
}
