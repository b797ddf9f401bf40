//! The files that a run replaces, in the order of their names.
ghost use Rattle.std.specs.Prelude.{◌≡◌, ◌≤◌, ◌<◌, ℕ, List, [], length, map, position, IfOk, MatchResult, OnOk};
ghost use Rattle.std.specs.List.{All};
ghost use Rattle.pipe_model.specs.Keys as Keys;
ghost use Rattle.pipe_model.specs.Reply.{FileText};
ghost use Rattle.call_meaning.specs.Devices.{store};
ghost use Rattle.call_meaning.specs.Effects.{in_order_after};
ghost use Rattle.call_meaning.specs.Status.{text_of};
ghost use Rattle.net_runs.specs.Puts.{ArePuts, AreStored, AreStoredPart, IsPut, file_at, put_text, with_put};
ghost use Rattle.net_runs.specs.Ran.{EndsAs, run_effect};
ghost use Rattle.call_streams.specs.Texts.{IsTelling};

use call_meaning::Outcome;
use call_streams::{Text, Told, no_memory, shelf_fault};
use core_machine::Core;
use outside::{Replaced, Shelf};
use pipe_model::{Kind, NoMemory, Rec};
use stage_steps::{Stage, is_less};
use std::alloc::Global;

// A file that is to be replaced by the text that a strand's stage keeps, and the text of its fault.
#[derive(Drop)]
pub(crate) struct Put {
    pub name: Rec,
    pub strand: u32,
    pub fault: Rec,
}

// The files that a run replaces, in the order of their names: none where a strand waits, or where too few steps are allowed.
pub(crate) fn files_of<S: Stage>(
    alloc: Global,
    core: &Core<S>,
    outcome: &Outcome,
) -> Result<Vec<Put>, NoMemory>
    requires few { length core.now.net.strands ≤ 65536 }
    requires ends { (steps : ℕ) × EndsAs steps core.now outcome.now }
    ensures { IfOk result (λ puts. ArePuts core.now (run_effect core.now outcome.now).files puts.items) }
{
    let mut puts = Vec::new(alloc);
    if let Outcome::Stalled(_) | Outcome::Spent(_) = outcome {
        return Ok(puts);
    }
    for strand in 0..core.net().strands.as_slice().len() {
        add_file(alloc, core, strand as u32, &mut puts)?;
    }
    Ok(puts)
}

// One more file, where the strand's stage keeps one and saw the end of its input.
fn add_file<S: Stage>(
    alloc: Global,
    core: &Core<S>,
    strand: u32,
    puts: &mut Vec<Put>,
) -> Result<(), NoMemory>
    requires { strand < length core.now.net.strands }
    ensures each { OnOk result (All (IsPut core.now) puts.old.items → All (IsPut core.now) puts.new.items) }
    ensures texts { OnOk result (map (put_text core.now) puts.new.items ≡ in_order_after (map (put_text core.now) puts.old.items) (file_at core.now strand)) }
{
    let Kind::FileOut { name } = &core.net().strands.as_slice()[strand as usize].kind else {
        return Ok(());
    };
    if !core.saw_end(strand) {
        return Ok(());
    }
    insert(puts, put_of(alloc, name, strand)?)
}

// The file of this name, with the strand whose text it is.
fn put_of(alloc: Global, name: &Rec, strand: u32) -> Result<Put, NoMemory>
    ensures { IfOk result (λ put. put ≡ record { name = name.now; strand = strand; fault = text_of (Outcome.ShelfFault name.now) }) }
{
    Ok(Put {
        name: name.copy(alloc)?,
        strand,
        fault: Rec::from_vec(shelf_fault(alloc, name.bytes())?),
    })
}

// One more file, behind those of lesser names and of its own.
fn insert(puts: &mut Vec<Put>, put: Put) -> Result<(), NoMemory>
    ensures { OnOk result (puts.new.items ≡ with_put put puts.old.items) }
{
    match place_of(puts, put.name.bytes()) {
        Some(place) => puts.insert(place, put)?,
        None => puts.push(put)?,
    }
    Ok(())
}

// Where the first file of a greater name is.
fn place_of(puts: &[Put], name: &[u8]) -> Option<usize>
    ensures { result ≡ position (λ other. Keys.is_less name.now other.name) puts.now }
{
    puts.iter()
        .position(|other| is_less(name, other.name.bytes()))
}

// Replaces the files, in their order. A fault, or want of memory, ends it, with its text.
pub(crate) fn replace_files<S: Stage, F: Shelf>(
    alloc: Global,
    shelf: &mut F,
    core: &Core<S>,
    puts: Vec<Put>,
) -> Result<(), Told>
    requires home { core.now.out ≡ [] }
    requires each { All (IsPut core.now) puts.items }
    ensures stored { (files : List FileText) → map (put_text core.now) puts.items ≡ files →
        let old = store (F.files shelf.old) (F.faults shelf.old) (F.wants shelf.old) in let new = store (F.files shelf.new) (F.faults shelf.new) (F.wants shelf.new) in
        MatchResult result (λ _. AreStored files old new) (λ told. AreStoredPart files old new told.outcome) }
    ensures text { MatchResult result (λ _. Unit {0}) IsTelling }
{
    for put in puts {
        match shelf.replace(alloc, put.name.bytes(), core.kept(put.strand)) {
            Replaced::Stored => {}
            Replaced::Failed => {
                return Err(Told {
                    outcome: Outcome::ShelfFault(put.name),
                    text: Text::Made(put.fault),
                });
            }
            Replaced::NoMemory => return Err(no_memory()),
        }
    }
    Ok(())
}
