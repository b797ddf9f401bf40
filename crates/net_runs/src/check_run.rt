//! A journal is played on a net.
ghost use Rattle.std.specs.Prelude.{◌≡◌, if◌then◌else◌, IfOk, codes};
ghost use Rattle.pipe_model.specs.WellFormed.{IsWellFormed};
ghost use Rattle.call_meaning.specs.Effects.{output_of};
ghost use Rattle.call_meaning.specs.Meaning.{CheckMeans, legal_line};
ghost use Rattle.call_streams.specs.Texts.{IsTelling};

use crate::maker::Maker;
use call_meaning::Outcome;
use call_streams::{Answer, add, add_number, with_text};
use journal_file::{Checked, Journal, check};
use pipe_model::{Net, NoMemory};
use stage_steps::Stage;
use std::alloc::Global;

/// Plays a journal on a net, with stages that the maker makes, and makes the line that tells a legal one, or the text that refuses another.
///
/// # Errors
///
/// `NoMemory` where there is no memory for the stages, the play or the text.
pub fn judged<S: Stage, M: Maker<S>>(
    alloc: Global,
    net: Net,
    maker: &M,
    journal: &Journal,
) -> Result<Answer, NoMemory>
    requires { IsWellFormed net }
    ensures means { IfOk result (λ answer. CheckMeans net journal.now answer.told.outcome (output_of answer.text.items)) }
    ensures text { IfOk result (λ answer. IsTelling answer.told) }
{
    let stages = maker.make(alloc, &net)?;
    let (text, outcome) = match check(alloc, net, stages, journal)? {
        Checked::Legal { complete } => {
            let line = legal_line(alloc, journal.len(), complete)?;
            (line, Outcome::Done)
        }
        Checked::Illegal { entry } => (Vec::new(alloc), Outcome::JournalEntry(entry)),
    };
    let told = with_text(alloc, outcome)?;
    Ok(Answer { text, told })
}

// How many entries a legal journal has, and whether it is complete.
fn legal_line(alloc: Global, count: u64, complete: bool) -> Result<Vec<u8>, NoMemory>
    ensures { IfOk result (λ text. text.items ≡ legal_line count complete) }
{
    let mut text = Vec::new(alloc);
    add(&mut text, "legal ")?;
    add_number(&mut text, count)?;
    add(&mut text, completeness(complete))?;
    add(&mut text, "\n")?;
    Ok(text)
}

// Whether a journal is complete, in a word with a blank before it.
fn completeness(complete: bool) -> &'static str
    ensures { result.now ≡ (if complete then codes " complete" else codes " open") }
{
    if complete { " complete" } else { " open" }
}
