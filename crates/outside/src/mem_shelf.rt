ghost use Rattle.std.specs.Prelude.{◌≡◌, [], Some, OnOk, OnErr, find, position};
ghost use Rattle.std.specs.Bool.{OnTrue};
ghost use Rattle.std.specs.Option.{option_copied};
ghost use Rattle.outside.specs.Faults.{Rose};
ghost use Rattle.outside.specs.Shelf.{Fetches, CountsFetch, Replaces, CountsReplace, CountsWant};
ghost use Rattle.outside.specs.InMemory.{is_named, files_of, put_file, call_fails, fetch_answer, AnswersFetch, replace_answer, AnswersReplace, after_call, after_replace};

use crate::calls::{is_to_fail, next_call};
use crate::shelf::{Fetched, Replaced, Shelf};
use pipe_model::{NoMemory, Rec};
use std::alloc::Global;
use std::marker::Model;

/// Files in memory, for tests. Fetches and replacements are counted together, and the calls whose numbers,
/// counted from 1, are named beforehand fail.
#[derive(Debug, Drop)]
pub struct MemShelf {
    files: Vec<File>,
    fails: Vec<u32>,
    calls: u64,
    faults: u64,
    wants: u64,
}

#[derive(Debug, Drop)]
struct File {
    name: Rec,
    bytes: Rec,
}

impl Model for MemShelf {
    ghost use Rattle.outside.specs.InMemory.{ShelfState};

    ghost Value = { ShelfState };

    ghost view = { λ s. record {
      files = s.files.items;
      fails = s.fails.items;
      calls = s.calls;
      faults = s.faults;
      wants = s.wants;
    } };
}

impl MemShelf {
    /// A shelf with no file, and no call made.
    pub fn new(alloc: Global, fails: Vec<u32>) -> MemShelf
        ensures { result ≡ record { files = []; fails = fails.items; calls = 0; faults = 0; wants = 0 } }
    {
        MemShelf {
            files: Vec::new(alloc),
            fails,
            calls: 0,
            faults: 0,
            wants: 0,
        }
    }

    /// Puts these bytes in the place of what the file of this name held, or makes the file, without a call that is
    /// counted. After want of memory all files are as they were.
    ///
    /// # Errors
    ///
    /// `NoMemory` where there is no memory for the copies.
    pub fn preset(&mut self, name: &[u8], bytes: &[u8]) -> Result<(), NoMemory>
        ensures ok { OnOk result (self.new ≡ record self.old { files = put_file self.old.files (record { name = name.now; bytes = bytes.now }) }) }
        ensures err { OnErr result (self.new ≡ self.old) }
    {
        let alloc = *self.files.allocator();
        put(&mut self.files, alloc, name, bytes)
    }

    /// The bytes of the file of this name, if there is one, without a call that is counted.
    pub fn content(&self, name: &[u8]) -> Option<&[u8]>
        ensures { option_copied result ≡ files_of self.now.files name.now }
    {
        match file_named(&self.files, name) {
            Some(file) => Some(file.bytes.bytes()),
            None => None,
        }
    }

    // Counts a call, and a fault where the call is to fail. Answers whether it is.
    fn count_call(&mut self) -> bool
        ensures fails { result ≡ call_fails self.old }
        ensures after { self.new ≡ after_call self.old self.old.files }
        ensures count { OnTrue result (Rose self.old.faults self.new.faults) }
    {
        self.calls = next_call(self.calls);
        let fails = is_to_fail(&self.fails, self.calls);
        if fails {
            self.faults = self.faults.saturating_add(1);
        }
        fails
    }
}

impl Shelf for MemShelf {
    ghost files = { λ s. Some (files_of s.files) };

    ghost faults = { λ s. s.faults };

    ghost wants = { λ s. s.wants };

    fn fetch(&mut self, alloc: Global, name: &[u8]) -> Fetched
        ensures files { Fetches (Some (files_of self.old.files)) (Some (files_of self.new.files))
            name.now result }
        ensures count { CountsFetch self.old.faults self.new.faults result }
        ensures wants { self.new.wants ≡ self.old.wants }
        ensures answer { AnswersFetch (fetch_answer self.old name.now) result }
        ensures after { self.new ≡ after_call self.old self.old.files }
    {
        if self.count_call() {
            return Fetched::Failed;
        }
        let Some(file) = file_named(&self.files, name) else {
            return Fetched::Absent;
        };
        match Rec::from_slice(alloc, file.bytes.bytes()) {
            Ok(bytes) => Fetched::Found(bytes),
            Err(NoMemory) => Fetched::NoMemory,
        }
    }

    /// After want of memory all files are as they were.
    fn replace(&mut self, alloc: Global, name: &[u8], bytes: &[u8]) -> Replaced
        ensures files { Replaces (Some (files_of self.old.files)) (Some (files_of self.new.files))
            name.now bytes.now result }
        ensures count { CountsReplace self.old.faults self.new.faults result }
        ensures wants { CountsWant self.old.wants self.new.wants result }
        ensures answer { AnswersReplace (replace_answer self.old) result }
        ensures after { self.new ≡ after_replace self.old (record { name = name.now; bytes = bytes.now }) result }
    {
        if self.count_call() {
            return Replaced::Failed;
        }
        if put(&mut self.files, alloc, name, bytes).is_err() {
            self.wants = self.wants.saturating_add(1);
            return Replaced::NoMemory;
        }
        Replaced::Stored
    }

    fn faults(&self) -> u64 {
        self.faults
    }
}

// Puts copies of the name and the bytes in the place of the file of that name, or at the end.
#[tactic(auto, using(crate::proofs::FilePuts::put_file_at_place))]
fn put(files: &mut Vec<File>, alloc: Global, name: &[u8], bytes: &[u8]) -> Result<(), NoMemory>
    ensures ok { OnOk result
        (files.new.items ≡ put_file files.old.items (record { name = name.now; bytes = bytes.now })) }
    ensures err { OnErr result (files.new.items ≡ files.old.items) }
{
    let file = File {
        name: Rec::from_slice(alloc, name)?,
        bytes: Rec::from_slice(alloc, bytes)?,
    };
    match place_of(files, name) {
        Some(k) => files[k] = file,
        None => files.push(file)?,
    }
    Ok(())
}

// The first file of this name.
fn file_named<'a>(files: &'a [File], name: &[u8]) -> Option<&'a File>
    ensures { option_copied result ≡ find (is_named name.now) files.now }
{
    files.iter().find(|file| file.name.bytes() == name)
}

// Where the first file of this name is.
fn place_of(files: &[File], name: &[u8]) -> Option<usize>
    ensures { result ≡ position (is_named name.now) files.now }
{
    files.iter().position(|file| file.name.bytes() == name)
}
