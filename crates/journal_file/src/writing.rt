ghost use Rattle.std.specs.Prelude.{◌≡◌, ◌++◌, IfOk, OnOk};
ghost use Rattle.journal_file.specs.Text.{entry_line, entry_lines, end_line, journal_text};

use crate::entries::Journal;
use itoa::{Buffer, Integer};
use pipe_model::{Entry, NoMemory, Rec};
use std::alloc::Global;

/// The text of a journal.
pub fn write(alloc: Global, journal: &Journal) -> Result<Rec, NoMemory>
    ensures { IfOk result (λ text. text ≡ journal_text journal.now) }
{
    text_of(alloc, journal.entries())
}

/// The text of a journal with these entries, which are a run's, say.
pub fn text_of(alloc: Global, entries: &[Entry]) -> Result<Rec, NoMemory>
    ensures { IfOk result (λ text. text ≡ journal_text entries.now) }
{
    let mut text = Vec::new(alloc);
    add(&mut text, "pipe-journal 1\n")?;
    add_entries(&mut text, entries)?;
    add_end(&mut text, entries.len() as u64)?;
    Ok(Rec::from_vec(text))
}

// Adds the lines of entries.
fn add_entries(text: &mut Vec<u8>, entries: &[Entry]) -> Result<(), NoMemory>
    ensures { OnOk result (text.new.items ≡ text.old.items ++ entry_lines entries.now) }
{
    for entry in entries {
        add_entry(text, *entry)?;
    }
    Ok(())
}

// Adds the line of an entry.
fn add_entry(text: &mut Vec<u8>, entry: Entry) -> Result<(), NoMemory>
    ensures { OnOk result (text.new.items ≡ text.old.items ++ entry_line entry) }
{
    add_number(text, entry.strand)?;
    add(text, " ")?;
    add_number(text, entry.stream)?;
    add(text, "\n")
}

// Adds the last line of so many entries.
fn add_end(text: &mut Vec<u8>, count: u64) -> Result<(), NoMemory>
    ensures { OnOk result (text.new.items ≡ text.old.items ++ end_line count) }
{
    add(text, "end ")?;
    add_number(text, count)?;
    add(text, "\n")
}

fn add_number<N: Integer>(text: &mut Vec<u8>, number: N) -> Result<(), NoMemory>
    ensures { OnOk result (text.new.items ≡ text.old.items ++ N.text number) }
{
    let mut buffer = Buffer::new();
    add(text, buffer.format(number))
}

fn add(text: &mut Vec<u8>, more: &str) -> Result<(), NoMemory>
    ensures { OnOk result (text.new.items ≡ text.old.items ++ more.now) }
{
    Ok(text.extend_from_slice(more.as_bytes())?)
}
