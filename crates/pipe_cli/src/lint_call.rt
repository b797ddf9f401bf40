//! Whether a specification may stall, told without a run.
ghost use Rattle.std.specs.Prelude.{ℕ, List, IfOk};
ghost use Rattle.outside.specs.Device.{Device, device};
ghost use Rattle.pipe_model.specs.WellFormed.{IsWellFormed};
ghost use Rattle.call_meaning.specs.Answer.{Decides};
ghost use Rattle.call_meaning.specs.Devices.{Store, outside};
ghost use Rattle.call_meaning.specs.Effects.{output_of};
ghost use Rattle.call_meaning.specs.Meaning.{LintMeans, LintsNet};
ghost use Rattle.call_streams.specs.Texts.{IsTelling};

use call_meaning::Outcome;
use call_streams::{Answer, Told, give, lint_line, no_memory, with_text};
use outside::Sink;
use pipe_model::{Net, NoMemory};
use stall_lint::lint;
use std::alloc::Global;

// Writes the line that tells whether the net may stall.
pub(crate) fn lint_call<O: Sink>(alloc: Global, net: &Net, output: &mut O) -> Told
    requires whole { IsWellFormed net.now }
    ensures decides { (words : List (List ℕ)) (input : Device) (shelf : Store) → LintsNet words net.now → Decides words
        (outside input (device (O.written output.old) (O.faults output.old)) shelf)
        (outside input (device (O.written output.new) (O.faults output.new)) shelf)
        result.outcome }
    ensures text { IsTelling result }
{
    match linted(alloc, net) {
        Ok(answer) => give(answer, output),
        Err(NoMemory) => no_memory(),
    }
}

// Makes the line, and what is told then.
fn linted(alloc: Global, net: &Net) -> Result<Answer, NoMemory>
    requires { IsWellFormed net.now }
    ensures means { IfOk result (λ answer. LintMeans net.now answer.told.outcome (output_of answer.text.items)) }
    ensures text { IfOk result (λ answer. IsTelling answer.told) }
{
    let answer = lint(alloc, net)?;
    let text = lint_line(alloc, &answer)?;
    let told = with_text(alloc, Outcome::Done)?;
    Ok(Answer { text, told })
}
