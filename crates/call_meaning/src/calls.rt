ghost use Rattle.std.specs.Prelude.{◌≡◌, [], Err, map, MatchResult, IfOk};
ghost use Rattle.std.specs.String.{string_bytes};
ghost use Rattle.call_meaning.specs.Calls.{IsCall, IsSound, StopsWords};

use crate::nets::net_of;
use crate::status::Outcome;
use call_words::{Command, WordsFault, read_words};
use pipe_model::{Net, Rec};
use std::alloc::Global;

/// The specification of the sample.
const SAMPLE_SPEC: &str =
    "(endchar ?) console | a: locate /7/ | change /7/77/ | b: faninany | console ? a: | b:";

/// What words ask for: a command with the net of its specification, whose stages are fed nothing yet. The specifications of sets stand in a file.
#[derive(Drop)]
pub enum Call {
    Run {
        net: Net,
        workers: u32,
        steps: u64,
        trace: Option<Rec>,
    },
    Check {
        net: Net,
        name: Rec,
    },
    Lint {
        net: Net,
    },
    Sample {
        net: Net,
        lines: u32,
        workers: u32,
        steps: u64,
    },
    Sets {
        name: Rec,
        workers: u32,
        steps: u64,
    },
}

/// What words ask for. An error is that they aren't carried out, or want of memory.
pub fn called(alloc: Global, words: &[String]) -> Result<Call, Outcome>
    ensures called { MatchResult result (λ call. IsCall (map (λ word. string_bytes word) words.now) call) (λ outcome. StopsWords (map (λ word. string_bytes word) words.now) outcome) }
    ensures none { words.now ≡ [] → result ≡ Err Outcome.Usage }
    ensures whole { IfOk result IsSound }
{
    let command = match read_words(alloc, words) {
        Ok(command) => command,
        Err(WordsFault::Usage) => return Err(Outcome::Usage),
        Err(WordsFault::NoMemory) => return Err(Outcome::NoMemory),
    };
    match command {
        Command::Run {
            spec,
            workers,
            steps,
            trace,
        } => {
            let net = net_of(alloc, spec.bytes())?;
            Ok(Call::Run {
                net,
                workers,
                steps,
                trace,
            })
        }
        Command::Check { spec, name } => {
            let net = net_of(alloc, spec.bytes())?;
            Ok(Call::Check { net, name })
        }
        Command::Lint { spec } => {
            let net = net_of(alloc, spec.bytes())?;
            Ok(Call::Lint { net })
        }
        Command::Sample {
            lines,
            workers,
            steps,
        } => {
            let net = net_of(alloc, SAMPLE_SPEC.as_bytes())?;
            Ok(Call::Sample {
                net,
                lines,
                workers,
                steps,
            })
        }
        Command::Sets {
            name,
            workers,
            steps,
        } => Ok(Call::Sets {
            name,
            workers,
            steps,
        }),
    }
}
