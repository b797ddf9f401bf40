//! A run of the tests in which ways part and meet: the stages of its net, and the core before its first step.
ghost use Rattle.std.specs.Prelude.{◌≡◌, ◌≤◌, IfOk};
ghost use Rattle.pipe_model.specs.WellFormed.{IsWellFormed};
ghost use Rattle.core_machine.specs.Machine.{started};
ghost use Rattle.core_machine.specs.Start.{AreFresh};

use crate::consoles::{Console, reading, writing};
use core_machine::Core;
use fan_stages::{FanStage, is_fan};
use pipe_model::{Kind, Net, NoMemory, Seen, Strand, Want};
use select_stages::{SelectStage, is_select};
use stage_steps::Stage;
use std::alloc::Global;

/// A stage that is made for a strand.
pub(crate) trait MadeForStrand: Stage {
    ghost use Rattle.std.specs.Prelude.{[], IfOk};

    /// The stage of a strand, before its first event.
    fn of_strand(alloc: Global, strand: &Strand) -> Result<Self, NoMemory>
        ensures { IfOk result (λ stage. Self.stands stage strand.now []) };
}

/// The stage of a CONSOLE, of one that selects, or of one that parts a stream or brings streams together.
#[derive(Drop)]
pub(crate) enum BraidStage {
    Console(Console),
    Select(SelectStage),
    Fan(FanStage),
}

impl Stage for BraidStage {
    ghost use Rattle.core_tests.specs.declared.braids.BraidStage.TheVariants.{Console, Select, Fan};
    ghost use Rattle.select_stages.specs.Select.{SelectStands};
    ghost use Rattle.fan_stages.specs.Fan.{FanStands};

    ghost stands = { λ x s h. elim x [ Console stage ↦ ⟦<Console as Stage>⟧.stands stage s h | Select stage ↦ SelectStands stage s h | Fan stage ↦ FanStands stage s h ] };

    fn first(&self) -> Want {
        match self {
            BraidStage::Console(stage) => stage.first(),
            BraidStage::Select(stage) => stage.first(),
            BraidStage::Fan(stage) => stage.first(),
        }
    }

    fn resume(&mut self, alloc: Global, seen: Seen, bytes: &[u8]) -> Result<Want, NoMemory> {
        match self {
            BraidStage::Console(stage) => stage.resume(alloc, seen, bytes),
            BraidStage::Select(stage) => stage.resume(alloc, seen, bytes),
            BraidStage::Fan(stage) => stage.resume(alloc, seen, bytes),
        }
    }

    fn looks(&self) -> bool {
        match self {
            BraidStage::Console(stage) => stage.looks(),
            BraidStage::Select(stage) => stage.looks(),
            BraidStage::Fan(stage) => stage.looks(),
        }
    }

    fn kept(&self) -> &[u8] {
        match self {
            BraidStage::Console(stage) => stage.kept(),
            BraidStage::Select(stage) => stage.kept(),
            BraidStage::Fan(stage) => stage.kept(),
        }
    }

    fn shown(&self) -> &[u8] {
        &[]
    }

    fn text_ahead(&self) -> &[u8] {
        &[]
    }
}

impl MadeForStrand for BraidStage {
    // No net of the tests has a strand of another kind, which gets no stage.
    fn of_strand(alloc: Global, strand: &Strand) -> Result<BraidStage, NoMemory> {
        let inputs = strand.ports.has_input.as_slice();
        let outputs = strand.ports.has_output.as_slice();
        match &strand.kind {
            Kind::ConsoleIn { bytes } => {
                let lines = reading(alloc, bytes.bytes(), outputs)?;
                Ok(BraidStage::Console(Console::Reads(lines)))
            }
            Kind::ConsoleOut => {
                let copies = writing(alloc, outputs)?;
                Ok(BraidStage::Console(Console::Writes(copies)))
            }
            kind if is_select(kind) => Ok(BraidStage::Select(SelectStage::new(alloc, strand)?)),
            kind if is_fan(kind) && inputs.len() <= 64 && outputs.len() <= 64 => {
                Ok(BraidStage::Fan(FanStage::new(alloc, strand)?))
            }
            _ => Err(NoMemory),
        }
    }
}

// A stage for each strand of a net, in their order, each before its first event.
fn stages_of<S: MadeForStrand>(alloc: Global, net: &Net) -> Result<Vec<S>, NoMemory>
    ensures { IfOk result (λ stages. AreFresh S.stands net.now.strands stages.items) }
{
    let strands = net.strands.as_slice();
    let mut stages = Vec::new(alloc);
    for k in 0..strands.len() {
        stages.push(S::of_strand(alloc, &strands[k])?)?;
    }
    Ok(stages)
}

/// The core of a net before its first step.
pub(crate) fn core_of<S: MadeForStrand>(
    alloc: Global,
    net: Net,
    budget: u64,
) -> Result<Core<S>, NoMemory>
    requires formed { IsWellFormed net }
    requires bounded { budget ≤ 50000000 }
    ensures { IfOk result (λ core. core ≡ started net budget) }
{
    let stages = stages_of(alloc, &net)?;
    Core::start(alloc, net, stages, budget)
}
