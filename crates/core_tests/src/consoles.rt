//! The small core of the tests: `console | console | console` on three records.
ghost use Rattle.std.specs.Prelude.{◌≡◌, ◌≤◌, IfOk};
ghost use Rattle.pipe_model.specs.declared.kind.Kind.TheVariants.{ConsoleIn, ConsoleOut};
ghost use Rattle.confluence_laws.specs.Examples.{passing};
ghost use Rattle.core_machine.specs.Machine.{started};
ghost use Rattle.stage_steps.specs.Drivers.{IsStageOf};
ghost use Rattle.stage_steps.specs.Each.{EachStand, each_look};
ghost use Rattle.stage_steps.specs.SharedLists.{LinesStand, lines_look, CopiesStand, copies_look};

use core_machine::Core;
use pipe_model::{Kind, Link, Net, NoMemory, Rec, Seen, Strand, Want};
use stage_steps::{Copies, Each, Listed, Order, Stage, TextLines};
use std::alloc::Global;

/// The stage of a CONSOLE, first in its pipeline or not.
#[derive(Drop)]
pub(crate) enum Console {
    Reads(Listed<TextLines>),
    Writes(Listed<Each<Copies>>),
}

impl Stage for Console {
    ghost use Rattle.core_tests.specs.declared.consoles.Console.TheVariants.{Reads, Writes};
    ghost use Rattle.stage_steps.specs.Drivers.{ListedStands};
    ghost use Rattle.stage_steps.specs.Each.{EachStand, each_look};
    ghost use Rattle.stage_steps.specs.SharedLists.{LinesStand, lines_look, CopiesStand, copies_look};

    ghost stands = { λ x s h. elim x [ Reads lines ↦ ListedStands LinesStand lines_look lines s h | Writes copies ↦ ListedStands (EachStand CopiesStand) (each_look copies_look) copies s h ] };

    fn first(&self) -> Want {
        match self {
            Console::Reads(stage) => stage.first(),
            Console::Writes(stage) => stage.first(),
        }
    }

    fn resume(&mut self, alloc: Global, seen: Seen, bytes: &[u8]) -> Result<Want, NoMemory> {
        match self {
            Console::Reads(stage) => stage.resume(alloc, seen, bytes),
            Console::Writes(stage) => stage.resume(alloc, seen, bytes),
        }
    }

    fn looks(&self) -> bool {
        match self {
            Console::Reads(stage) => stage.looks(),
            Console::Writes(stage) => stage.looks(),
        }
    }

    fn kept(&self) -> &[u8] {
        match self {
            Console::Reads(stage) => stage.kept(),
            Console::Writes(stage) => stage.kept(),
        }
    }

    fn shown(&self) -> &[u8] {
        &[]
    }

    fn text_ahead(&self) -> &[u8] {
        &[]
    }
}

/// The stage of a CONSOLE that is first, with its bytes, before its first event.
pub(crate) fn reading(
    alloc: Global,
    bytes: &[u8],
    outputs: &[bool],
) -> Result<Listed<TextLines>, NoMemory>
    ensures { IfOk result (IsStageOf LinesStand lines_look (ConsoleIn bytes.now) outputs.now) }
{
    let lines = TextLines::new(Rec::from_slice(alloc, bytes)?);
    Listed::new(alloc, lines, Order::WritesFirst, outputs, false)
}

/// The stage of a CONSOLE that isn't first, before its first event.
pub(crate) fn writing(alloc: Global, outputs: &[bool]) -> Result<Listed<Each<Copies>>, NoMemory>
    ensures { IfOk result (IsStageOf (EachStand CopiesStand) (each_look copies_look) ConsoleOut outputs.now) }
{
    let copies = Copies::lists(true);
    Listed::new(alloc, copies, Order::WritesFirst, outputs, true)
}

fn passing_net(alloc: Global) -> Result<Net, NoMemory>
    ensures { IfOk result (λ net. net ≡ passing) }
{
    let mut strands = Vec::new(alloc);
    let bytes = Rec::from_slice(alloc, b"ab\ncd\nb")?;
    strands.push(Strand::of_stage(alloc, 0, Kind::ConsoleIn { bytes }, &[], &[true])?)?;
    strands.push(Strand::of_stage(alloc, 1, Kind::ConsoleOut, &[true], &[true])?)?;
    strands.push(Strand::of_stage(alloc, 2, Kind::ConsoleOut, &[true], &[false])?)?;
    let links = vec![in alloc; Link::rendezvous(0, 0, 1, 0), Link::rendezvous(1, 0, 2, 0)]?;
    Ok(Net::new(strands, links))
}

/// The core before its first step.
pub(crate) fn passing_core(alloc: Global, budget: u64) -> Result<Core<Console>, NoMemory>
    requires { budget ≤ 50000000 }
    ensures { IfOk result (λ core. core ≡ started passing budget) }
{
    let net = passing_net(alloc)?;
    let first = reading(alloc, b"ab\ncd\nb", &[true])?;
    let second = writing(alloc, &[true])?;
    let last = writing(alloc, &[false])?;
    let stages = vec![in alloc;
        Console::Reads(first),
        Console::Writes(second),
        Console::Writes(last),
    ]?;
    Core::start(alloc, net, stages, budget)
}
