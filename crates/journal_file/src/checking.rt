ghost use Rattle.std.specs.Prelude.{◌≡◌, ◌<◌, false, [], length, IfOk};
ghost use Rattle.pipe_model.specs.WellFormed.{IsWellFormed};
ghost use Rattle.core_machine.specs.Machine.{started, IsLawful};
ghost use Rattle.core_machine.specs.Start.{AreFresh};
ghost use Rattle.journal_file.specs.Judged.{Judges};
ghost use Rattle.journal_file.specs.Made.{HasMade};

use crate::entries::Journal;
use core_machine::{Core, Turned};
use pipe_model::{Entry, Net, NoMemory};
use stage_steps::Stage;
use std::alloc::Global;

/// What a journal is to a net.
#[derive(Clone, Copy, Debug, PartialEq, Eq)]
pub enum Checked {
    /// Each entry has a licence after those before it. It is complete where no entry can be added.
    Legal { complete: bool },
    /// This entry, counted from 1, is the first without a licence after those before it.
    Illegal { entry: u64 },
}

/// Plays a journal on a net with these stages, each before its first event, up to its first entry without a licence. Each
/// entry costs what a step of a run costs, and at the end every strand is asked once whether it may go on.
pub fn check<S: Stage>(
    alloc: Global,
    net: Net,
    stages: Vec<S>,
    journal: &Journal,
) -> Result<Checked, NoMemory>
    requires whole { IsWellFormed net }
    requires fresh { AreFresh S.stands net.strands stages.items }
    ensures { IfOk result (Judges net journal.now) }
{
    let entries = journal.entries();
    let mut core = Core::start(alloc, net, stages, entries.len() as u64)?;
    judge(alloc, &mut core, entries)
}

// Makes the entries one after another in a core before its first step.
fn judge<S: Stage>(
    alloc: Global,
    core: &mut Core<S>,
    entries: &[Entry],
) -> Result<Checked, NoMemory>
    requires { core.old ≡ started core.old.net (length entries.now) }
    ensures { IfOk result (Judges core.old.net entries.now) }
{
    let mut room = Vec::new(alloc);
    for entry in entries {
        if !make(alloc, core, *entry, &mut room)? {
            let entry = core.len() + 1;
            return Ok(Checked::Illegal { entry });
        }
    }
    let complete = core.is_complete();
    Ok(Checked::Legal { complete })
}

// Makes an entry's event with its work, and answers whether it may be. The room grows to what the strand sees.
fn make<S: Stage>(
    alloc: Global,
    core: &mut Core<S>,
    entry: Entry,
    room: &mut Vec<u8>,
) -> Result<bool, NoMemory>
    requires home { core.old.out ≡ [] }
    requires whole { core.old.is_broken ≡ false }
    requires space { length core.old.journal < core.old.budget }
    ensures made { IfOk result (λ may. HasMade core.old entry may core.new) }
    ensures lawful { IsLawful core.new }
{
    loop {
        match core.turn(entry.strand, entry.stream, room) {
            Turned::Work(job) => {
                let done = job.run(alloc, room);
                core.finish(done)?;
                return Ok(true);
            }
            Turned::Room(size) => *room = Vec::with_capacity(alloc, size)?,
            Turned::NotReady => return Ok(false),
            Turned::Broken | Turned::Spent => unreachable!(),
        }
    }
}
