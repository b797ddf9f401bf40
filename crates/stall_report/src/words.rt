ghost use Rattle.std.specs.Prelude.{◌≡◌, ◌++◌, IfOk, OnOk};
ghost use Rattle.stall_report.specs.Words.{line_words, stage_name, wait_text, want_words};

use crate::lines::{WaitLine, WaitWant, Waits};
use itoa::{Buffer, Integer};
use pipe_model::{Net, NoMemory, Rec, name_of};
use std::alloc::Global;

/// The text of wait lines, for standard error: of each strand that waits a line with its number, the name of its stage
/// and what it waits for.
pub fn text(alloc: Global, net: &Net, waits: &Waits) -> Result<Rec, NoMemory>
    ensures { IfOk result (λ rec. rec ≡ wait_text net.now waits.now) }
{
    let mut bytes = Vec::new(alloc);
    for line in waits.as_slice() {
        add_line(&mut bytes, net, *line)?;
        add(&mut bytes, "\n")?;
    }
    Ok(Rec::from_vec(bytes))
}

// Adds a wait line without its line feed.
fn add_line(bytes: &mut Vec<u8>, net: &Net, line: WaitLine) -> Result<(), NoMemory>
    ensures { OnOk result (bytes.new.items ≡ bytes.old.items ++ line_words net.now line) }
{
    add_number(bytes, "wait ", line.strand)?;
    add(bytes, " ")?;
    add(bytes, stage_name(net, line.strand))?;
    add(bytes, " ")?;
    add_want(bytes, line.want)
}

// Adds what a strand waits for.
fn add_want(bytes: &mut Vec<u8>, want: WaitWant) -> Result<(), NoMemory>
    ensures { OnOk result (bytes.new.items ≡ bytes.old.items ++ want_words want) }
{
    match want {
        WaitWant::Commit(level) => add_number(bytes, "commit ", level),
        WaitWant::Read(input) => add_number(bytes, "read ", input),
        WaitWant::Any => add(bytes, "any"),
        WaitWant::Gate => add(bytes, "gate"),
        WaitWant::Write(output) => add_number(bytes, "write ", output),
        WaitWant::Primed => add(bytes, "primed"),
        WaitWant::Join(unit) => add_number(bytes, "join ", unit),
    }
}

// The name of the stage of a strand; nothing where there is no such strand.
fn stage_name(net: &Net, strand: u32) -> &'static str
    ensures { result.now ≡ stage_name net.now strand }
{
    match net.strands.as_slice().get(strand as usize) {
        Some(strand) => name_of(&strand.kind),
        None => "",
    }
}

// Adds a text and a number.
fn add_number<N: Integer>(bytes: &mut Vec<u8>, before: &str, number: N) -> Result<(), NoMemory>
    ensures { OnOk result (bytes.new.items ≡ bytes.old.items ++ (before.now ++ N.text number)) }
{
    add(bytes, before)?;
    let mut buffer = Buffer::new();
    add(bytes, buffer.format(number))
}

fn add(bytes: &mut Vec<u8>, more: &str) -> Result<(), NoMemory>
    ensures { OnOk result (bytes.new.items ≡ bytes.old.items ++ more.now) }
{
    bytes.extend_from_slice(more.as_bytes())?;
    Ok(())
}
