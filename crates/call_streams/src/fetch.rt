//! The files that the stages of a net read, fetched before the run.
ghost use Rattle.std.specs.Prelude.{◌≡◌, ◌≤◌, List, [], ◌∷◌, ◌++◌, find, option_copied, IfErr, IfOk, MatchResult, OnOk, None};
ghost use Rattle.outside.specs.Files.{Files};
ghost use Rattle.pipe_model.specs.Table.{line_of};
ghost use Rattle.pipe_model.specs.Table.Feed.{OfFile};
ghost use Rattle.pipe_model.specs.WellFormed.{IsWellFormed};
ghost use Rattle.net_graph.specs.Fed.{AreUnfiled, filed};
ghost use Rattle.call_meaning.specs.Devices.{store};
ghost use Rattle.call_meaning.specs.Meaning.{input_limit};
ghost use Rattle.call_streams.specs.Fetched.{AreFetched, AreFetchedPart, AreOf, IsGiven, IsUngiven, files_known, has_name};
ghost use Rattle.call_streams.specs.Texts.{IsTelling};

use crate::read::INPUT_LIMIT;
use crate::text::{Told, no_memory, tell, with_text};
use call_meaning::Outcome;
use net_graph::feed;
use outside::{Fetched, Shelf};
use pipe_model::{Kind, Net, NoMemory, Rec};
use std::alloc::Global;

/// A file that was fetched: its bytes, or that it isn't there.
#[derive(Drop)]
pub struct Found {
    pub name: Rec,
    pub bytes: Option<Rec>,
}

// Gives each `<` of a net its file, in the order of the strands, behind so many bytes of others, and answers how many these are with them. A name
// that several have, or one that was found before, is fetched once. An error is a fault of the shelf, too many bytes or want of memory, with its text.
pub(crate) fn fetch_files<F: Shelf>(
    alloc: Global,
    net: &mut Net,
    found: &mut Vec<Found>,
    before: usize,
    shelf: &mut F,
) -> Result<usize, Told>
    requires whole { IsWellFormed net.old }
    requires unfiled { AreUnfiled net.old }
    requires known { AreOf (files_known (F.files shelf.old) found.old.items) found.old.items }
    requires fits { before ≤ input_limit }
    ensures fetched { let old = store (F.files shelf.old) (F.faults shelf.old) (F.wants shelf.old) in let new = store (F.files shelf.new) (F.faults shelf.new) (F.wants shelf.new) in
        MatchResult result (λ after. AreFetched net.old.strands before after found.old.items found.new.items old new) (λ told. AreFetchedPart net.old.strands before found.old.items old new told.outcome) }
    ensures filed { OnOk result ((files : Files) → AreOf files found.new.items → net.new ≡ filed files net.old) }
    ensures whole { OnOk result (IsWellFormed net.new) }
    ensures text { IfErr result IsTelling }
{
    let mut size = before;
    for strand in 0..net.strands.as_slice().len() {
        let kind = &net.strands.as_slice()[strand].kind;
        if let Some(bytes) = file_of(alloc, kind, found, shelf)? {
            let len = bytes.bytes().len();
            if len > INPUT_LIMIT - size {
                return Err(tell(alloc, Outcome::InputTooLarge));
            }
            size += len;
            feed(net, strand as u32, bytes);
        }
    }
    Ok(size)
}

// The bytes of the file that a kind reads, if it reads one and that is there.
fn file_of<F: Shelf>(
    alloc: Global,
    kind: &Kind,
    found: &mut Vec<Found>,
    shelf: &mut F,
) -> Result<Option<Rec>, Told>
    ensures given { let old = store (F.files shelf.old) (F.faults shelf.old) (F.wants shelf.old) in let new = store (F.files shelf.new) (F.faults shelf.new) (F.wants shelf.new) in
        MatchResult result (λ bytes. IsGiven (line_of kind.now).feed old new found.old.items found.new.items bytes) (λ told. IsUngiven (line_of kind.now).feed old new told.outcome) }
    ensures text { IfErr result IsTelling }
{
    let Kind::FileIn { name, .. } = kind else {
        return Ok(None);
    };
    match named(found, name.bytes()) {
        Some(file) => again(alloc, &file.bytes),
        None => fetch(alloc, name, found, shelf),
    }
}

// The file of this name that was fetched before.
fn named<'a>(found: &'a [Found], name: &[u8]) -> Option<&'a Found>
    ensures { option_copied result ≡ find (has_name name.now) found.now }
{
    found.iter().find(|file| file.name.bytes() == name)
}

// The bytes of a file that was fetched before.
fn again(alloc: Global, bytes: &Option<Rec>) -> Result<Option<Rec>, Told>
    ensures same { MatchResult result (λ copy. copy ≡ bytes.now) (λ told. told.outcome ≡ Outcome.NoMemory) }
    ensures text { IfErr result IsTelling }
{
    match copy_of(alloc, bytes) {
        Ok(copy) => Ok(copy),
        Err(NoMemory) => Err(no_memory()),
    }
}

fn copy_of(alloc: Global, bytes: &Option<Rec>) -> Result<Option<Rec>, NoMemory>
    ensures { IfOk result (λ copy. copy ≡ bytes.now) }
{
    match bytes {
        None => Ok(None),
        Some(bytes) => Ok(Some(bytes.copy(alloc)?)),
    }
}

// Fetches a file that wasn't fetched before. The text of its fault is made before.
pub(crate) fn fetch<F: Shelf>(
    alloc: Global,
    name: &Rec,
    found: &mut Vec<Found>,
    shelf: &mut F,
) -> Result<Option<Rec>, Told>
    requires { find (has_name name.now) found.old.items ≡ None }
    ensures given { let old = store (F.files shelf.old) (F.faults shelf.old) (F.wants shelf.old) in let new = store (F.files shelf.new) (F.faults shelf.new) (F.wants shelf.new) in
        MatchResult result (λ bytes. IsGiven (OfFile name.now) old new found.old.items found.new.items bytes) (λ told. IsUngiven (OfFile name.now) old new told.outcome) }
    ensures text { IfErr result IsTelling }
{
    let Ok(fault) = fault_of(alloc, name) else {
        return Err(no_memory());
    };
    match shelf.fetch(alloc, name.bytes()) {
        Fetched::Found(bytes) => kept(alloc, found, name, Some(bytes)),
        Fetched::Absent => kept(alloc, found, name, None),
        Fetched::Failed => Err(fault),
        Fetched::NoMemory => Err(no_memory()),
    }
}

// The file of this name failed.
fn fault_of(alloc: Global, name: &Rec) -> Result<Told, NoMemory>
    ensures outcome { IfOk result (λ told. told.outcome ≡ Outcome.ShelfFault name.now) }
    ensures text { IfOk result IsTelling }
{
    with_text(alloc, Outcome::ShelfFault(name.copy(alloc)?))
}

// A file that was fetched is kept for others of its name.
fn kept(
    alloc: Global,
    found: &mut Vec<Found>,
    name: &Rec,
    bytes: Option<Rec>,
) -> Result<Option<Rec>, Told>
    ensures same { MatchResult result (λ same. same ≡ bytes) (λ told. told.outcome ≡ Outcome.NoMemory) }
    ensures kept { OnOk result (found.new.items ≡ found.old.items ++ record { name = name.now; bytes = bytes } ∷ []) }
    ensures text { IfErr result IsTelling }
{
    match keep(alloc, found, name, &bytes) {
        Ok(()) => Ok(bytes),
        Err(NoMemory) => Err(no_memory()),
    }
}

fn keep(
    alloc: Global,
    found: &mut Vec<Found>,
    name: &Rec,
    bytes: &Option<Rec>,
) -> Result<(), NoMemory>
    ensures { OnOk result (found.new.items ≡ found.old.items ++ record { name = name.now; bytes = bytes.now } ∷ []) }
{
    found.push(Found {
        name: name.copy(alloc)?,
        bytes: copy_of(alloc, bytes)?,
    })?;
    Ok(())
}
