//! The line of a lint.
ghost use Rattle.std.specs.Prelude.{◌≡◌, ◌++◌, IfOk, codes};
ghost use Rattle.call_meaning.specs.Meaning.{after_blanks, lint_line};
ghost use Rattle.call_meaning.specs.Status.{line};

use crate::text::{add, add_number, numbered};
use pipe_model::NoMemory;
use stall_lint::Lint;
use std::alloc::Global;

/// The line that tells whether a net may stall.
pub fn lint_line(alloc: Global, answer: &Lint) -> Result<Vec<u8>, NoMemory>
    ensures { IfOk result (λ text. text.items ≡ lint_line answer.now) }
{
    match answer {
        Lint::Loose(strand) => numbered(alloc, "may stall: loose ", *strand),
        Lint::Issuer(strand) => numbered(alloc, "may stall: issuer ", *strand),
        Lint::Latch(strand) => numbered(alloc, "may stall: latch ", *strand),
        Lint::Walk(walk) => walk_line(alloc, walk.as_slice()),
        Lint::Never => never_line(alloc),
    }
}

// The line of a closed walk.
fn walk_line(alloc: Global, walk: &[u32]) -> Result<Vec<u8>, NoMemory>
    ensures { IfOk result (λ text. text.items ≡ line (codes "may stall: walk" ++ after_blanks walk.now)) }
{
    let mut text = Vec::new(alloc);
    add(&mut text, "may stall: walk")?;
    for strand in walk {
        add(&mut text, " ")?;
        add_number(&mut text, *strand)?;
    }
    add(&mut text, "\n")?;
    Ok(text)
}

// The line of a net that never stalls.
fn never_line(alloc: Global) -> Result<Vec<u8>, NoMemory>
    ensures { IfOk result (λ text. text.items ≡ line (codes "never stalls")) }
{
    let mut text = Vec::new(alloc);
    add(&mut text, "never stalls\n")?;
    Ok(text)
}
