//! The sets of a file: they are fetched, and their stages are fed.
ghost use Rattle.std.specs.Prelude.{◌≡◌, ◌<◌, ◌≤◌, ℕ, List, length, map, IfErr, IfOk, MatchOption, MatchResult, OnOk};
ghost use Rattle.std.specs.List.{All, flat_map};
ghost use Rattle.outside.specs.Device.{Device, device};
ghost use Rattle.outside.specs.Files.{Files};
ghost use Rattle.pipe_model.specs.Records.{lines};
ghost use Rattle.pipe_model.specs.declared.net.Net.{Net as NetIs};
ghost use Rattle.net_graph.specs.Fed.{filed, reads_any, with_input};
ghost use Rattle.call_meaning.specs.Calls.{IsSoundSet};
ghost use Rattle.call_meaning.specs.Devices.{outside, store};
ghost use Rattle.call_meaning.specs.Meaning.{input_limit};
ghost use Rattle.call_meaning.specs.Sets.{AreFew, all_of};
ghost use Rattle.call_streams.specs.Fetched.{AreFetched, AreFetchedPart, AreOf, HasManyLines, HasNoSets, HasSets, files_known};
ghost use Rattle.call_streams.specs.Feeding.{IsFed, IsFedPart, IsWholeSet, nets_in, set_on, set_reads, set_with, strands_in};
ghost use Rattle.call_streams.specs.Taken.{IsTaken, IsTakenPart};
ghost use Rattle.call_streams.specs.Texts.{IsTelling};

use crate::fetch::{Found, fetch, fetch_files};
use crate::input::{give_input, net_reads};
use crate::read::{INPUT_LIMIT, read_all};
use crate::text::{Told, tell};
use call_meaning::{Outcome, Set};
use outside::{Shelf, Source};
use pipe_model::{Lines, NoMemory, Rec};
use std::alloc::Global;

/// The most sets of a file.
const MOST_SETS: u64 = 256;

/// The most steps that the sets of a file have together.
const MOST_STEPS: u64 = 50_000_000;

/// The text of a file of sets, and the file that it was read from.
#[derive(Drop)]
pub struct Listed {
    pub text: Rec,
    pub found: Vec<Found>,
}

/// The text of the file of sets, which has at most 256 lines, and at most 50,000,000 steps for all of them. An error is that it isn't
/// there, or its first line past that, a fault of the shelf or want of memory, with its text.
pub fn fetch_sets<F: Shelf>(
    alloc: Global,
    name: &Rec,
    steps: u64,
    shelf: &mut F,
) -> Result<Listed, Told>
    requires { (0 < steps) × (steps ≤ 50000000) }
    ensures sets { let old = store (F.files shelf.old) (F.faults shelf.old) (F.wants shelf.old) in let new = store (F.files shelf.new) (F.faults shelf.new) (F.wants shelf.new) in
        MatchResult result (λ listed. HasSets name.now steps old new listed.found.items listed.text) (λ told. HasNoSets name.now steps old new told.outcome) }
    ensures text { IfErr result IsTelling }
{
    let mut found = Vec::new(alloc);
    let Some(text) = fetch(alloc, name, &mut found, shelf)? else {
        return Err(tell(alloc, Outcome::SetsAbsent));
    };
    match first_past(text.bytes(), steps) {
        None => Ok(Listed { text, found }),
        Some(number) => Err(tell(alloc, Outcome::SetsLine(number))),
    }
}

// The number of the first line that is one too many for so many steps each, if one is. Line 1 is the first.
fn first_past(text: &[u8], steps: u64) -> Option<u64>
    requires { steps ≤ 50000000 }
    ensures { MatchOption result (AreFew steps (length (lines text.now))) (λ number. HasManyLines steps text.now number) }
{
    let mut number = 0;
    for _ in Lines::new(text) {
        number += 1;
        if number > MOST_SETS || number * steps > MOST_STEPS {
            return Some(number);
        }
    }
    None
}

/// The sets with what their stages are fed: each `<` its file, in the order of the sets and of their strands, and each reading CONSOLE the
/// input, which is read once. A file that several read, or that was found before, is fetched once, and counts for each. An error is a fault of
/// the shelf or of the input, too many bytes or want of memory, with its text.
pub fn feed_sets<I: Source, F: Shelf>(
    alloc: Global,
    sets: Vec<Set>,
    found: Vec<Found>,
    input: &mut I,
    shelf: &mut F,
) -> Result<Vec<Set>, Told>
    requires whole { All IsSoundSet sets.items }
    requires known { AreOf (files_known (F.files shelf.old) found.items) found.items }
    ensures fed { (output : Device) →
        let old = outside (device (I.left input.old) (I.faults input.old)) output (store (F.files shelf.old) (F.faults shelf.old) (F.wants shelf.old)) in
        let new = outside (device (I.left input.new) (I.faults input.new)) output (store (F.files shelf.new) (F.faults shelf.new) (F.wants shelf.new)) in
        let nets = all_of (nets_in sets.items) in
        MatchResult result (λ after. (net : NetIs) × (fed : IsFed nets found.items old new net) × (after.items ≡ map (set_on fed.given) sets.items)) (λ told. IsFedPart nets found.items old new told.outcome) }
    ensures whole { IfOk result (λ after. All IsWholeSet after.items) }
    ensures text { IfErr result IsTelling }
{
    let mut sets = sets;
    let mut found = found;
    let size = fetch_all_files(alloc, &mut sets, &mut found, shelf)?;
    match take_all_input(alloc, &mut sets, input, INPUT_LIMIT - size) {
        Ok(()) => Ok(sets),
        Err(outcome) => Err(tell(alloc, outcome)),
    }
}

// Gives each `<` of the sets its file, and answers how many bytes all gave.
fn fetch_all_files<F: Shelf>(
    alloc: Global,
    sets: &mut Vec<Set>,
    found: &mut Vec<Found>,
    shelf: &mut F,
) -> Result<usize, Told>
    requires whole { All IsSoundSet sets.old.items }
    requires known { AreOf (files_known (F.files shelf.old) found.old.items) found.old.items }
    ensures fetched { let old = store (F.files shelf.old) (F.faults shelf.old) (F.wants shelf.old) in let new = store (F.files shelf.new) (F.faults shelf.new) (F.wants shelf.new) in
        let strands = flat_map strands_in sets.old.items in
        MatchResult result (λ after. AreFetched strands 0 after found.old.items found.new.items old new) (λ told. AreFetchedPart strands 0 found.old.items old new told.outcome) }
    ensures filed { OnOk result ((files : Files) → AreOf files found.new.items → sets.new.items ≡ map (set_with (filed files)) sets.old.items) }
    ensures whole { OnOk result (All IsWholeSet sets.new.items) }
    ensures text { IfErr result IsTelling }
{
    let mut size = 0;
    for set in sets.iter_mut() {
        size = fetch_set_files(alloc, set, found, size, shelf)?;
    }
    Ok(size)
}

// Gives each `<` of a set its file, behind so many bytes of other sets, and answers how many these are with them.
fn fetch_set_files<F: Shelf>(
    alloc: Global,
    set: &mut Set,
    found: &mut Vec<Found>,
    before: usize,
    shelf: &mut F,
) -> Result<usize, Told>
    requires whole { IsSoundSet set.old }
    requires known { AreOf (files_known (F.files shelf.old) found.old.items) found.old.items }
    requires fits { before ≤ input_limit }
    ensures fetched { let old = store (F.files shelf.old) (F.faults shelf.old) (F.wants shelf.old) in let new = store (F.files shelf.new) (F.faults shelf.new) (F.wants shelf.new) in
        let strands = strands_in set.old in
        MatchResult result (λ after. AreFetched strands before after found.old.items found.new.items old new) (λ told. AreFetchedPart strands before found.old.items old new told.outcome) }
    ensures filed { OnOk result ((files : Files) → AreOf files found.new.items → set.new ≡ set_with (filed files) set.old) }
    ensures whole { OnOk result (IsWholeSet set.new) }
    ensures text { IfErr result IsTelling }
{
    match set {
        Set::Whole(net) => fetch_files(alloc, net, found, before, shelf),
        Set::Refused(_) => Ok(before),
    }
}

// Reads the input to its end, `limit` bytes at most, where a set reads it, and gives it to all that do. An error is a read fault, too much input
// or want of memory.
fn take_all_input<I: Source>(
    alloc: Global,
    sets: &mut Vec<Set>,
    input: &mut I,
    limit: usize,
) -> Result<(), Outcome>
    requires whole { All IsWholeSet sets.old.items }
    ensures taken { let old = device (I.left input.old) (I.faults input.old) in let new = device (I.left input.new) (I.faults input.new) in
        let nets = all_of (nets_in sets.old.items) in
        MatchResult result (λ _. (bytes : List ℕ) × IsTaken limit nets old new bytes × (sets.new.items ≡ map (set_with (with_input bytes)) sets.old.items)) (λ outcome. IsTakenPart limit nets old new outcome) }
    ensures whole { OnOk result (All IsWholeSet sets.new.items) }
{
    if !sets_read(sets) {
        return Ok(());
    }
    let bytes = read_all(alloc, input, limit)?;
    match give_all_input(alloc, sets, bytes) {
        Ok(()) => Ok(()),
        Err(NoMemory) => Err(Outcome::NoMemory),
    }
}

// A CONSOLE of a set reads the input.
fn sets_read(sets: &[Set]) -> bool
    ensures { result ≡ reads_any (all_of (nets_in sets.now)) }
{
    sets.iter().any(set_reads)
}

// A CONSOLE of the set reads the input.
fn set_reads(set: &Set) -> bool
    ensures { result ≡ set_reads set.now }
{
    match set {
        Set::Whole(net) => net_reads(net),
        Set::Refused(_) => false,
    }
}

// Gives the bytes of the input to all sets that read it, which hold them once among them.
fn give_all_input(alloc: Global, sets: &mut Vec<Set>, bytes: Vec<u8>) -> Result<(), NoMemory>
    requires { All IsWholeSet sets.old.items }
    ensures fed { OnOk result (sets.new.items ≡ map (set_with (with_input bytes.items)) sets.old.items) }
    ensures whole { OnOk result (All IsWholeSet sets.new.items) }
{
    let input = Rec::shared(alloc, bytes)?;
    for set in sets.iter_mut() {
        give_set_input(alloc, set, &input)?;
    }
    Ok(())
}

// Gives the bytes of the input to all that read it in a set.
fn give_set_input(alloc: Global, set: &mut Set, input: &Rec) -> Result<(), NoMemory>
    requires { IsWholeSet set.old }
    ensures fed { OnOk result (set.new ≡ set_with (with_input input.now) set.old) }
    ensures whole { OnOk result (IsWholeSet set.new) }
{
    match set {
        Set::Whole(net) => give_input(alloc, net, input),
        Set::Refused(_) => Ok(()),
    }
}
