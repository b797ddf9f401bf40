ghost use Rattle.std.specs.Prelude.{MatchResult};
ghost use Rattle.outside.specs.Device.{device};
ghost use Rattle.call_streams.specs.Written.{HasGiven, IsPartWritten, IsWritten};
ghost use Rattle.call_streams.specs.Texts.{IsTelling};

use crate::text::{Told, write_fault};
use call_meaning::Outcome;
use outside::{Sink, WriteAnswer};

/// A text for the output, and what is told then.
#[derive(Drop)]
pub struct Answer {
    pub text: Vec<u8>,
    pub told: Told,
}

/// Writes the text, and gives back what is to be told then.
pub fn give<O: Sink>(answer: Answer, output: &mut O) -> Told
    requires { IsTelling answer.told }
    ensures gives { let old = device (O.written output.old) (O.faults output.old) in let new = device (O.written output.new) (O.faults output.new) in
        HasGiven answer.text.items answer.told.outcome old new result.outcome }
    ensures text { IsTelling result }
{
    match write_all(output, &answer.text) {
        Ok(()) => answer.told,
        Err(_) => write_fault(),
    }
}

/// Writes the bytes to their end, piece by piece. The only error is a write fault.
pub fn write_all<O: Sink>(output: &mut O, bytes: &[u8]) -> Result<(), Outcome>
    ensures { let old = device (O.written output.old) (O.faults output.old) in let new = device (O.written output.new) (O.faults output.new) in
        MatchResult result (λ _. IsWritten bytes.now old new) (λ outcome. IsPartWritten bytes.now old new outcome) }
{
    let mut at = 0;
    while at < bytes.len() {
        match output.write(&bytes[at..]) {
            WriteAnswer::Took(count) => at += count,
            WriteAnswer::Failed => return Err(Outcome::WriteFault),
        }
    }
    Ok(())
}
