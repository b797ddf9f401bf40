ghost use Rattle.std.specs.Prelude.{◌≡◌, ◌≢◌, ◌<◌, ◌≤◌, ◌-◌, ◌^◌, ◌/◌, ◌*◌, ℕ, length, replicate, MatchOption, IfSome, IfOk, ◌==◌};
ghost use Rattle.core_machine.specs.Members.{has, word_at, low_word, IsLeastBit};

use pipe_model::NoMemory;
use std::alloc::Global;
use std::marker::Model;

/// Numbers as the bits of words, 64 in each.
#[derive(Drop)]
pub struct Bits {
    words: Vec<u64>,
}

impl Model for Bits {
    ghost use Rattle.std.specs.Prelude.{ℕ, ◌≤◌, List, length};

    ghost Value = { List ℕ };

    ghost view = { λ bits. bits.words.items };

    ghost invariant = { λ bits. length bits.words.items ≤ 67108864 };
}

impl Bits {
    /// No number, with so many words: at most those of the numbers of 32 bits.
    pub fn new(alloc: Global, count: usize) -> Result<Bits, NoMemory>
        requires { count ≤ 67108864 }
        ensures { IfOk result (λ bits. bits ≡ replicate count 0) }
    {
        Ok(Bits {
            words: vec![in alloc; 0u64; count]?,
        })
    }

    /// A word by its number, which is 0 behind the end.
    pub fn word(&self, k: usize) -> u64
        ensures { result ≡ word_at self.now k }
    {
        match self.words.get(k) {
            None => 0,
            Some(word) => *word,
        }
    }

    /// A word that is there.
    pub fn word_in(&self, k: usize) -> u64
        requires { k < length self.now }
        ensures { result ≡ word_at self.now k }
    {
        self.words[k]
    }

    /// Whether a number is in.
    pub fn holds(&self, s: u32) -> bool
        requires { s / 64 < length self.now }
        ensures { result ≡ (has self.now s == 1) }
    {
        (self.word_in((s / 64) as usize) >> (s % 64)) & 1 == 1
    }

    /// Puts a number in.
    pub fn insert(&mut self, s: u32)
        requires { s / 64 < length self.old }
        ensures here { has self.new s ≡ 1 }
        ensures others { (t : ℕ) → t ≢ s → has self.new t ≡ has self.old t }
        ensures apart { (k : ℕ) → k ≢ s / 64 → word_at self.new k ≡ word_at self.old k }
        ensures size { length self.new ≡ length self.old }
    {
        let k = (s / 64) as usize;
        let word = self.word_in(k);
        self.words[k] = word | bit(s % 64);
    }

    /// Takes a number out.
    pub fn remove(&mut self, s: u32)
        requires { s / 64 < length self.old }
        ensures here { has self.new s ≡ 0 }
        ensures others { (t : ℕ) → t ≢ s → has self.new t ≡ has self.old t }
        ensures apart { (k : ℕ) → k ≢ s / 64 → word_at self.new k ≡ word_at self.old k }
        ensures size { length self.new ≡ length self.old }
    {
        let k = (s / 64) as usize;
        let word = self.word_in(k);
        self.words[k] = word & !bit(s % 64);
    }

    /// Holds the numbers below this one, and no other.
    pub fn fill(&mut self, count: u32)
        requires { count ≤ 64 * length self.old }
        ensures words { (k : ℕ) → word_at self.new k ≡ low_word (count - 64 * k) }
        ensures size { length self.new ≡ length self.old }
    {
        let mut k = 0;
        while k < self.words.len() {
            self.words[k] = low_word((count as u64).saturating_sub(64 * k as u64));
            k += 1;
        }
    }

    /// The least number, by a walk along the words.
    pub fn least(&self) -> Option<u32>
        ensures inside { IfSome result (λ s. s < 64 * length self.now) }
        ensures least { MatchOption result ((t : ℕ) → has self.now t ≡ 0) (λ s. IsLeastBit self.now s) }
    {
        let mut k = 0;
        while k < self.words.len() {
            let word = self.word(k);
            if word != 0 {
                return Some((64 * (k as u64) + word.trailing_zeros() as u64) as u32);
            }
            k += 1;
        }
        None
    }
}

// The word whose first bits, so many, are 1.
fn low_word(count: u64) -> u64
    ensures { result ≡ low_word count }
{
    if count < 64 {
        (1 << count) - 1
    } else {
        u64::MAX
    }
}

// The word whose one bit is the k-th.
fn bit(k: u32) -> u64
    requires { k < 64 }
    ensures { result ≡ 2 ^ k }
{
    1 << k
}
