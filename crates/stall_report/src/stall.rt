ghost use Rattle.std.specs.Prelude.{◌≡◌, ◌≢◌, ◌↔◌, ◌<◌, ℕ, List, [], length, IfOk};
ghost use Rattle.pipe_model.specs.Play.{HasEnded, IsStalled};
ghost use Rattle.pipe_model.specs.Reply.{reply};
ghost use Rattle.stage_steps.specs.Coroutine.{meaning};
ghost use Rattle.core_machine.specs.Machine.{HasStopped, state_of, want_of};
ghost use Rattle.stall_report.specs.Waits.{wait_line, wait_lines, waited};

use crate::lines::{WaitLine, WaitWant, Waits};
use core_machine::Core;
use pipe_model::{NoMemory, Want};
use stage_steps::Stage;
use std::alloc::Global;

/// The strands that haven't ended where no strand is out and none may have an event, and what each waits for.
pub fn report<S: Stage>(alloc: Global, core: &Core<S>) -> Result<Waits, NoMemory>
    requires { HasStopped core.now }
    ensures lines { IfOk result (λ waits. waits ≡ wait_lines (reply core.now.net (state_of core.now)).waits) }
    ensures all { IfOk result (λ waits. length waits ≡ length (reply core.now.net (state_of core.now)).waits) }
    ensures ended { IfOk result (λ waits. (waits ≡ []) ↔ HasEnded core.now.net (state_of core.now)) }
    ensures stalled { IfOk result (λ waits. (waits ≢ []) ↔ IsStalled core.now.net core.now.journal) }
{
    let mut lines = Vec::new(alloc);
    for strand in 0..core.strand_count() {
        if let Some(line) = line_of(core, strand) {
            lines.push(line)?;
        }
    }
    Ok(Waits::from_vec(lines))
}

// The line of a strand that waits.
fn line_of<S: Stage>(core: &Core<S>, strand: u32) -> Option<WaitLine>
    requires { strand < length core.now.net.strands }
    ensures { result ≡ wait_line (strand, want_of core.now strand) }
{
    let want = waited(core.want_of(strand)?)?;
    Some(WaitLine { strand, want })
}

// What a strand that asks for this waits for, where it waits.
fn waited(want: &Want) -> Option<WaitWant>
    ensures { (sight : ℕ → List ℕ) → result ≡ waited (meaning want.now sight) }
{
    match want {
        Want::Commit(level) => Some(WaitWant::Commit(*level)),
        Want::Read(input) => Some(WaitWant::Read(*input)),
        Want::Any => Some(WaitWant::Any),
        Want::Gate => Some(WaitWant::Gate),
        Want::Write(output, _) => Some(WaitWant::Write(*output)),
        Want::Primed => Some(WaitWant::Primed),
        Want::Join(unit) => Some(WaitWant::Join(*unit)),
        Want::Take(_) | Want::Issue(_) | Want::Cut(_) | Want::Done(_) => None,
    }
}
