ghost use Rattle.std.specs.Prelude.{◌≡◌, ◌++◌, OnOk};
ghost use Rattle.step_journal.specs.Words as Words;

use pipe_model::{Entry, NoMemory};
use std::alloc::Global;
use std::marker::Model;

/// The entries of the steps of a run, in order, at 8 bytes each. Three that come again and again, as where one strand writes
/// records and the next one takes each as it sees it, are kept once for up to 65,536 times.
#[derive(Drop)]
pub struct StepJournal {
    words: Vec<Word>,
    // The number of entries.
    count: u64,
}

// An entry, and how often it comes again, each time behind the two before it.
#[derive(Clone, Copy)]
struct Word {
    strand: u32,
    stream: u16,
    more: u16,
}

impl Model for StepJournal {
    ghost use Rattle.std.specs.Prelude.{◌≡◌, length, vec_capacity};
    ghost use Rattle.step_journal.specs.Steps.{Steps};
    ghost use Rattle.step_journal.specs.Words.{entries_of};

    ghost Value = { Steps };

    ghost view = { λ journal. record { items = entries_of journal.words.items; room = vec_capacity journal.words } };

    ghost invariant = { λ journal. journal.count ≡ length (entries_of journal.words.items) };
}

impl StepJournal {
    ghost use Rattle.std.specs.Prelude.{◌≡◌, ◌<◌, ◌≤◌, ◌+◌, ◌-◌, ◌*◌, ◌++◌, ◌∷◌, [], Some, length, slice_get, IfOk};
    ghost use Rattle.step_journal.specs.Words.{rounds_of};

    /// No entry, with room for so many.
    pub fn with_room(alloc: Global, room: usize) -> Result<StepJournal, NoMemory>
        ensures empty { IfOk result (λ journal. journal.items ≡ []) }
        ensures room { IfOk result (λ journal. room ≤ journal.room) }
    {
        Ok(StepJournal {
            words: Vec::with_capacity(alloc, room)?,
            count: 0,
        })
    }

    /// The number of entries.
    #[inline(always)]
    pub fn len(&self) -> u64
        ensures { result ≡ length self.now.items }
    {
        self.count
    }

    /// Adds an entry. It takes no memory.
    #[inline(always)]
    pub fn push_reserved(&mut self, entry: Entry)
        requires { length self.old.items < self.old.room }
        ensures items { self.new.items ≡ self.old.items ++ entry ∷ [] }
        ensures room { self.new.room ≡ self.old.room }
    {
        self.words.push_reserved(word_of(entry, 0));
        self.count += 1;
    }

    /// Adds three entries, so many times. It takes no memory.
    #[inline(never)]
    pub fn push_rounds(&mut self, first: Entry, second: Entry, third: Entry, rounds: u64)
        requires { length self.old.items + 3 * rounds ≤ self.old.room }
        ensures items { self.new.items ≡ self.old.items ++ rounds_of first second third rounds }
        ensures room { self.new.room ≡ self.old.room }
    {
        let mut left = rounds;
        while left > 0 {
            let more = (left - 1).min(u16::MAX as u64);
            self.words.push_reserved(word_of(first, 0));
            self.words.push_reserved(word_of(second, 0));
            self.words.push_reserved(word_of(third, more as u16));
            self.count += 3 * more + 3;
            left -= more + 1;
        }
    }

    /// The entry at a place, counted from 1. The cost grows with the number of words before it.
    pub fn entry(&self, k: u64) -> Entry
        requires some { 0 < k }
        requires within { k ≤ length self.now.items }
        ensures { slice_get self.now.items (k - 1) ≡ Some result }
    {
        let mut left = k - 1;
        let mut first = NOTHING;
        let mut second = NOTHING;
        for word in &self.words {
            let third = entry_of(*word);
            if left == 0 {
                return third;
            }
            left -= 1;
            let again = 3 * word.more as u64;
            if left < again {
                return match left % 3 {
                    0 => first,
                    1 => second,
                    _ => third,
                };
            }
            left -= again;
            first = second;
            second = third;
        }
        unreachable!()
    }

    /// All entries, one by one.
    pub fn entries(&self, alloc: Global) -> Result<Vec<Entry>, NoMemory>
        ensures { IfOk result (λ all. all.items ≡ self.now.items) }
    {
        let mut all = Vec::with_capacity(alloc, self.count as usize)?;
        let mut first = NOTHING;
        let mut second = NOTHING;
        for word in &self.words {
            let third = entry_of(*word);
            all.push(third)?;
            add_rounds(&mut all, first, second, third, word.more)?;
            first = second;
            second = third;
        }
        Ok(all)
    }
}

// What stands before the first entry.
const NOTHING: Entry = Entry {
    strand: 0,
    stream: 0,
};

// Adds three entries, so many times.
fn add_rounds(
    all: &mut Vec<Entry>,
    first: Entry,
    second: Entry,
    third: Entry,
    rounds: u16,
) -> Result<(), NoMemory>
    ensures { OnOk result (all.new.items ≡ all.old.items ++ Words.rounds_of first second third rounds) }
{
    for _ in 0..rounds {
        all.push(first)?;
        all.push(second)?;
        all.push(third)?;
    }
    Ok(())
}

// The entry of a word.
#[inline(always)]
fn entry_of(word: Word) -> Entry
    ensures { result ≡ Words.entry_of word }
{
    Entry {
        strand: word.strand,
        stream: word.stream,
    }
}

// The word of an entry that comes so often again.
#[inline(always)]
fn word_of(entry: Entry, more: u16) -> Word
    ensures { result ≡ record { strand = entry.strand; stream = entry.stream; more = more } }
{
    Word {
        strand: entry.strand,
        stream: entry.stream,
        more,
    }
}
