//! The text of an outcome on standard error, which is made before anything is written.
ghost use Rattle.std.specs.Prelude.{◌≡◌, ◌++◌, IfErr, IfOk, OnOk, codes, decimal, true};
ghost use Rattle.call_meaning.specs.Status.{fault_number, line, text_of};
ghost use Rattle.call_streams.specs.Texts.{bytes_in, IsTelling, IsToldAs, wants_memory};

use call_meaning::Outcome;
use itoa::{Buffer, Integer};
use pipe_model::{NoMemory, Rec};
use spec_scanner::SpecFaultKind;
use std::alloc::Global;

/// A text whose lines have their line feeds.
#[derive(Drop)]
pub enum Text {
    Fixed(&'static str),
    Made(Rec),
}

impl Text {
    /// All of it.
    pub fn bytes(&self) -> &[u8]
        ensures { result.now ≡ bytes_in self.now }
    {
        match self {
            Text::Fixed(text) => text.as_bytes(),
            Text::Made(text) => text.bytes(),
        }
    }
}

/// An outcome with its text.
#[derive(Drop)]
pub struct Told {
    pub outcome: Outcome,
    pub text: Text,
}

/// How the program is called.
const USAGE: &str =
    "usage: pipe SPEC [--workers N] [--steps N] [--trace NAME] [--check NAME] [--lint] | pipe --sample N | pipe --sets NAME\n";

const OUT_OF_MEMORY: &str = "out of memory\n";

const WRITE_FAULT: &str = "write fault\n";

/// The outcome with its text, or want of memory with its own.
pub fn tell(alloc: Global, outcome: Outcome) -> Told
    ensures { IsToldAs outcome result }
{
    match with_text(alloc, outcome) {
        Ok(told) => told,
        Err(NoMemory) => no_memory(),
    }
}

/// The outcome with its text.
pub fn with_text(alloc: Global, outcome: Outcome) -> Result<Told, NoMemory>
    ensures same { IfOk result (λ told. told.outcome ≡ outcome) }
    ensures text { IfOk result IsTelling }
    ensures lacks { IfErr result (λ _. wants_memory outcome ≡ true) }
{
    let text = text_of(alloc, &outcome)?;
    Ok(Told { outcome, text })
}

/// Want of memory, with its text.
pub fn no_memory() -> Told
    ensures outcome { result.outcome ≡ Outcome.NoMemory }
    ensures text { IsTelling result }
{
    Told {
        outcome: Outcome::NoMemory,
        text: Text::Fixed(OUT_OF_MEMORY),
    }
}

/// A fault of the output, with its text.
pub fn write_fault() -> Told
    ensures outcome { result.outcome ≡ Outcome.WriteFault }
    ensures text { IsTelling result }
{
    Told {
        outcome: Outcome::WriteFault,
        text: Text::Fixed(WRITE_FAULT),
    }
}

// The text of an outcome. Only one that tells numbers, lines or a name wants memory.
fn text_of(alloc: Global, outcome: &Outcome) -> Result<Text, NoMemory>
    ensures text { IfOk result (λ text. bytes_in text ≡ text_of outcome.now) }
    ensures lacks { IfErr result (λ _. wants_memory outcome.now ≡ true) }
{
    let made = match outcome {
        Outcome::Coded(code) => numbered(alloc, "code ", *code)?,
        Outcome::SpecRefused {
            number,
            argument,
            place,
        } => refusal(alloc, *number, *argument, *place)?,
        Outcome::Stalled(lines) => stall(alloc, lines.bytes())?,
        Outcome::Spent(steps) => numbered(alloc, "spent ", *steps)?,
        Outcome::JournalLine(number) => numbered(alloc, "journal line ", *number)?,
        Outcome::JournalEntry(number) => numbered(alloc, "journal entry ", *number)?,
        Outcome::ShelfFault(name) => shelf_fault(alloc, name.bytes())?,
        Outcome::SomeSet(lines) => return Ok(Text::Made(lines.copy(alloc)?)),
        Outcome::SetsLine(number) => numbered(alloc, "sets line ", *number)?,
        Outcome::Done => return Ok(Text::Fixed("")),
        Outcome::ReadFault => return Ok(Text::Fixed("read fault\n")),
        Outcome::WriteFault => return Ok(Text::Fixed(WRITE_FAULT)),
        Outcome::NoMemory => return Ok(Text::Fixed(OUT_OF_MEMORY)),
        Outcome::Usage => return Ok(Text::Fixed(USAGE)),
        Outcome::InputTooLarge => return Ok(Text::Fixed("input too large\n")),
        Outcome::JournalAbsent => return Ok(Text::Fixed("journal absent\n")),
        Outcome::SetsAbsent => return Ok(Text::Fixed("sets absent\n")),
    };
    Ok(Text::Made(Rec::from_vec(made)))
}

// A line with a number.
pub(crate) fn numbered<N: Integer>(
    alloc: Global,
    before: &str,
    number: N,
) -> Result<Vec<u8>, NoMemory>
    ensures { IfOk result (λ text. text.items ≡ line (before.now ++ N.text number)) }
{
    let mut text = Vec::new(alloc);
    add(&mut text, before)?;
    add_number(&mut text, number)?;
    add(&mut text, "\n")?;
    Ok(text)
}

// The line of a refused specification. A fault of arguments has a number of its own after a point.
fn refusal(alloc: Global, number: u8, argument: u8, place: u32) -> Result<Vec<u8>, NoMemory>
    ensures { IfOk result (λ text. text.items ≡ line (codes "spec " ++ (fault_number number argument ++ (codes " at " ++ decimal place)))) }
{
    let mut text = Vec::new(alloc);
    add(&mut text, "spec ")?;
    add_number(&mut text, number)?;
    if number == SpecFaultKind::BadArguments.number() {
        add(&mut text, ".")?;
        add_number(&mut text, argument)?;
    }
    add(&mut text, " at ")?;
    add_number(&mut text, place)?;
    add(&mut text, "\n")?;
    Ok(text)
}

// The lines of a stall.
fn stall(alloc: Global, lines: &[u8]) -> Result<Vec<u8>, NoMemory>
    ensures { IfOk result (λ text. text.items ≡ line (codes "stall") ++ (lines.now ++ line (codes "code -4095"))) }
{
    let mut text = Vec::new(alloc);
    add(&mut text, "stall\n")?;
    text.extend_from_slice(lines)?;
    add(&mut text, "code -4095\n")?;
    Ok(text)
}

/// The line of a file that failed.
pub fn shelf_fault(alloc: Global, name: &[u8]) -> Result<Vec<u8>, NoMemory>
    ensures { IfOk result (λ text. text.items ≡ line (codes "shelf fault " ++ name.now)) }
{
    let mut text = Vec::new(alloc);
    add(&mut text, "shelf fault ")?;
    text.extend_from_slice(name)?;
    add(&mut text, "\n")?;
    Ok(text)
}

/// More of a text.
pub fn add(text: &mut Vec<u8>, more: &str) -> Result<(), NoMemory>
    ensures { OnOk result (text.new.items ≡ text.old.items ++ more.now) }
{
    Ok(text.extend_from_slice(more.as_bytes())?)
}

/// A number more, as decimal digits.
pub fn add_number<N: Integer>(text: &mut Vec<u8>, number: N) -> Result<(), NoMemory>
    ensures { OnOk result (text.new.items ≡ text.old.items ++ N.text number) }
{
    let mut buffer = Buffer::new();
    add(text, buffer.format(number))
}
