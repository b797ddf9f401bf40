//! The sets of a file: each ended by itself, and then all are told and written.
ghost use Rattle.std.specs.Prelude.{◌≡◌, ◌++◌, map, length, ◌≤◌, IfOk, OnOk, MatchResult};
ghost use Rattle.std.specs.List.{All};
ghost use Rattle.outside.specs.Device.{device};
ghost use Rattle.call_meaning.specs.Devices.{store};
ghost use Rattle.call_meaning.specs.Sets.{effect_of_sets, lines_of_set, outcome_of_sets};
ghost use Rattle.call_streams.specs.Texts.{IsTelling};
ghost use Rattle.call_streams.specs.Written.{IsPartWritten, IsWritten};
ghost use Rattle.net_runs.specs.Puts.{AreStored, AreStoredPart};
ghost use Rattle.net_runs.specs.ReadyRuns.{PutsOut};
ghost use Rattle.net_runs.specs.SetRuns.{IsWritable, end_of};

use crate::ready_run::{Ready, write_output};
use crate::replace::replace_files;
use call_meaning::{Outcome, Status};
use call_streams::{Told, add, add_number, with_text, write_fault};
use outside::{Shelf, Sink};
use pipe_model::{NoMemory, Rec};
use stage_steps::Stage;
use std::alloc::Global;

// How a set ended: its net was run, or it is refused.
#[derive(Drop)]
pub(crate) enum Ended<S: Stage> {
    Ran(Ready<S>),
    Unread(Told),
}

// Sets that have ended, of which nothing has been written, and what is told of all of them.
#[derive(Drop)]
pub(crate) struct Sets<S: Stage> {
    pub ended: Vec<Ended<S>>,
    pub told: Told,
}

// What is told of all sets, with its text.
pub(crate) fn tell_sets<S: Stage>(alloc: Global, sets: &[Ended<S>]) -> Result<Told, NoMemory>
    requires few { length sets.now ≤ 256 }
    requires told { All IsWritable sets.now }
    ensures outcome { IfOk result (λ told. told.outcome ≡ outcome_of_sets (map (λ ended. end_of ended) sets.now)) }
    ensures text { IfOk result IsTelling }
{
    let mut lines = Vec::new(alloc);
    let mut number = 1;
    for set in sets {
        add_set(&mut lines, number, told_of(set))?;
        number += 1;
    }
    if lines.is_empty() {
        return with_text(alloc, Outcome::Done);
    }
    with_text(alloc, Outcome::SomeSet(Rec::from_vec(lines)))
}

// What is told of a set.
fn told_of<S: Stage>(ended: &Ended<S>) -> &Told
    requires { IsWritable ended.now }
    ensures outcome { result.now.outcome ≡ (end_of ended.now).outcome }
    ensures text { IsTelling result.now }
{
    match ended {
        Ended::Ran(ready) => &ready.told,
        Ended::Unread(told) => told,
    }
}

// More of the lines: those of one set, if its status isn't 0.
fn add_set(lines: &mut Vec<u8>, number: u32, told: &Told) -> Result<(), NoMemory>
    requires { IsTelling told.now }
    ensures { OnOk result (lines.new.items ≡ lines.old.items ++ lines_of_set number told.now.outcome) }
{
    let status = told.outcome.status();
    if status == Status::Zero {
        return Ok(());
    }
    add(lines, "set ")?;
    add_number(lines, number)?;
    add(lines, " status ")?;
    add_number(lines, status.number())?;
    add(lines, "\n")?;
    Ok(lines.extend_from_slice(told.text.bytes())?)
}

// Writes the output of each set, one after another, and then replaces the files of each, in the order of the sets and of the names within one.
// A fault of the output leaves all files as they were, and one of the shelf those from there on.
pub(crate) fn put_sets_out<S: Stage, O: Sink, F: Shelf>(
    alloc: Global,
    sets: Sets<S>,
    output: &mut O,
    shelf: &mut F,
) -> Told
    requires ready { All IsWritable sets.ended.items }
    requires told { IsTelling sets.told }
    ensures puts { let old = device (O.written output.old) (O.faults output.old) in let new = device (O.written output.new) (O.faults output.new) in
        PutsOut (effect_of_sets (map (λ ended. end_of ended) sets.ended.items)) old new (store (F.files shelf.old) (F.faults shelf.old) (F.wants shelf.old)) (store (F.files shelf.new) (F.faults shelf.new) (F.wants shelf.new)) sets.told.outcome result.outcome }
    ensures text { IsTelling result }
{
    let Sets { ended: sets, told } = sets;
    for ended in &sets {
        if write_set(output, ended).is_err() {
            return write_fault();
        }
    }
    for ended in sets {
        if let Err(fault) = replace_set(alloc, shelf, ended) {
            return fault;
        }
    }
    told
}

// Writes the output of a set. The only error is a write fault.
fn write_set<S: Stage, O: Sink>(output: &mut O, ended: &Ended<S>) -> Result<(), Outcome>
    requires { IsWritable ended.now }
    ensures { let old = device (O.written output.old) (O.faults output.old) in let new = device (O.written output.new) (O.faults output.new) in
        MatchResult result (λ _. IsWritten (end_of ended.now).effect.output old new) (λ fault. IsPartWritten (end_of ended.now).effect.output old new fault) }
{
    match ended {
        Ended::Ran(ready) => write_output(output, &ready.core, &ready.told.outcome),
        Ended::Unread(_) => Ok(()),
    }
}

// Replaces the files of a set, in their order. A fault, or want of memory, ends it, with its text.
fn replace_set<S: Stage, F: Shelf>(
    alloc: Global,
    shelf: &mut F,
    ended: Ended<S>,
) -> Result<(), Told>
    requires { IsWritable ended }
    ensures stored { let old = store (F.files shelf.old) (F.faults shelf.old) (F.wants shelf.old) in let new = store (F.files shelf.new) (F.faults shelf.new) (F.wants shelf.new) in
        MatchResult result (λ _. AreStored (end_of ended).effect.files old new) (λ told. AreStoredPart (end_of ended).effect.files old new told.outcome) }
    ensures text { MatchResult result (λ _. Unit {0}) IsTelling }
{
    match ended {
        Ended::Ran(
            Ready {
                core,
                told: _told,
                puts,
                trace: _trace,
            },
        ) => replace_files(alloc, shelf, &core, puts),
        Ended::Unread(_told) => Ok(()),
    }
}
