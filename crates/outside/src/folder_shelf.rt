ghost use Rattle.std.specs.Prelude.{◌≡◌, None, Err, MatchResult};
ghost use Rattle.outside.specs.declared.fault.Fault.TheVariants as faults;
ghost use Rattle.outside.specs.declared.shelf.Fetched.TheVariants as fetched;
ghost use Rattle.outside.specs.declared.shelf.Replaced.TheVariants as replaced;
ghost use Rattle.outside.specs.Shelf.{Fetches, CountsFetch, Replaces, CountsReplace, CountsWant};
ghost use Rattle.outside.specs.Folder.{IsPath, faults_after_fetch, faults_after_replace, wants_after_replace};

use crate::fault::Fault;
use crate::folder_fetch::fetch_file;
use crate::folder_replace::replace_file;
use crate::shelf::{Fetched, Replaced, Shelf};
use pipe_model::Rec;
use std::alloc::Global;
use std::marker::Model;
use std::rt::Files;

/// The files of the folder where the program runs. A name is a path that starts there, so it may also lead
/// elsewhere. A name that isn't UTF-8, or that has a NUL, is a fault.
#[derive(Drop)]
pub struct FolderShelf<'a, Rt> {
    rt: &'a Rt,
    faults: u64,
    wants: u64,
}

impl<'a, Rt> Model for FolderShelf<'a, Rt> {
    ghost use Rattle.outside.specs.Folder.{FolderCounts};

    ghost Value = { FolderCounts };

    ghost view = { λ shelf. record { faults = shelf.faults; wants = shelf.wants } };
}

impl<'a, Rt> FolderShelf<'a, Rt> {
    /// The files that the runtime reaches, with no fault, and no replacement that wanted memory.
    pub fn new(rt: &'a Rt) -> FolderShelf<'a, Rt>
        ensures { result ≡ record { faults = 0; wants = 0 } }
    {
        FolderShelf {
            rt,
            faults: 0,
            wants: 0,
        }
    }
}

impl<'a, Rt: Files> Shelf for FolderShelf<'a, Rt> {
    ghost files = { λ _. None };

    ghost faults = { λ shelf. shelf.faults };

    ghost wants = { λ shelf. shelf.wants };

    /// A file of more than 1,073,741,824 bytes, a folder, and a link that leads to nothing are faults. `Absent`
    /// is answered where nothing at all has the name.
    fn fetch(&mut self, alloc: Global, name: &[u8]) -> Fetched
        ensures files { Fetches None None name.now result }
        ensures count { CountsFetch self.old.faults self.new.faults result }
        ensures wants { self.new.wants ≡ self.old.wants }
        ensures after { self.new.faults ≡ faults_after_fetch self.old.faults result }
        ensures path { ¬ (IsPath name.now) → result ≡ fetched.Failed }
    {
        match fetch_named(self.rt, alloc, name) {
            Ok(Some(bytes)) => Fetched::Found(bytes),
            Ok(None) => Fetched::Absent,
            Err(Fault::NoMemory) => Fetched::NoMemory,
            Err(Fault::Device) => {
                self.faults = self.faults.saturating_add(1);
                Fetched::Failed
            }
        }
    }

    /// A file is replaced whole or not at all: after a fault, or want of memory, it is as it was. A device, or a
    /// pipe with a name, is written in place, and may have taken a part of the bytes.
    fn replace(&mut self, alloc: Global, name: &[u8], bytes: &[u8]) -> Replaced
        ensures files { Replaces None None name.now bytes.now result }
        ensures count { CountsReplace self.old.faults self.new.faults result }
        ensures wants { CountsWant self.old.wants self.new.wants result }
        ensures after { self.new ≡ record { faults = faults_after_replace self.old.faults result; wants = wants_after_replace self.old.wants result } }
        ensures path { ¬ (IsPath name.now) → result ≡ replaced.Failed }
    {
        match replace_named(self.rt, alloc, name, bytes) {
            Ok(()) => Replaced::Stored,
            Err(Fault::NoMemory) => {
                self.wants = self.wants.saturating_add(1);
                Replaced::NoMemory
            }
            Err(Fault::Device) => {
                self.faults = self.faults.saturating_add(1);
                Replaced::Failed
            }
        }
    }

    fn faults(&self) -> u64 {
        self.faults
    }
}

// The bytes of the file of this name, if there is one.
fn fetch_named<Rt: Files>(rt: &Rt, alloc: Global, name: &[u8]) -> Result<Option<Rec>, Fault>
    ensures { ¬ (IsPath name.now) → result ≡ Err faults.Device }
{
    let path = path_of(name)?;
    fetch_file(rt, alloc, path)
}

// Replaces the file of this name.
fn replace_named<Rt: Files>(rt: &Rt, alloc: Global, name: &[u8], bytes: &[u8]) -> Result<(), Fault>
    ensures { ¬ (IsPath name.now) → result ≡ Err faults.Device }
{
    let path = path_of(name)?;
    replace_file(rt, alloc, path, bytes)
}

// The path that this name is.
fn path_of(name: &[u8]) -> Result<&str, Fault>
    ensures { MatchResult result
        (λ path. (path.now ≡ name.now) × IsPath name.now)
        (λ fault. (fault ≡ faults.Device) × ¬ (IsPath name.now)) }
{
    if name.contains(&0) {
        return Err(Fault::Device);
    }
    match str::from_utf8(name) {
        Ok(path) => Ok(path),
        Err(_) => Err(Fault::Device),
    }
}
