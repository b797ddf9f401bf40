ghost use Rattle.std.specs.Prelude.{◌≡◌, ◌≤◌, length};
ghost use Rattle.fan_stages.specs.Fan.{is_fan};

use crate::fan_any::{FansInAny, Juxtaposes};
use crate::fan_each::FanEach;
use crate::fan_in::FanIn;
use crate::fan_out::{Deals, FansOut};
use crate::fan_plans::FanPlans;
use crate::gather::Gather;
use crate::overlay::Overlays;
use crate::synchronise::Synchronises;
use pipe_model::{Kind, NoMemory, Seen, Strand, Want};
use stage_steps::{Each, Listed, Order, Planned, Reply, Stage};
use std::alloc::Global;

/// A stage that parts a stream or brings streams together.
#[derive(Drop)]
pub enum FanStage {
    Parts(Listed<Each<FanEach>>),
    Joins(Planned<FanPlans>),
}

/// Whether the kind is one of the fans and weaves.
pub fn is_fan(kind: &Kind) -> bool
    ensures { result ≡ is_fan kind.now }
{
    matches!(
        kind,
        Kind::FanOut
            | Kind::FanIn
            | Kind::FanInAny
            | Kind::Deal
            | Kind::Gather
            | Kind::Overlay(_)
            | Kind::Synchronise
            | Kind::Juxtapose
    )
}

// How many inputs a strand has.
fn inputs_of(strand: &Strand) -> u16
    requires { length strand.now.ports.has_input ≤ 64 }
    ensures { result ≡ length strand.now.ports.has_input }
{
    strand.ports.has_input.as_slice().len() as u16
}

impl FanStage {
    ghost use Rattle.std.specs.Prelude.{◌≡◌, ◌≤◌, [], true, length, IfOk};
    ghost use Rattle.pipe_model.specs.declared.net.Strand.{Strand as StrandIs};
    ghost use Rattle.fan_stages.specs.Fan.{is_fan, ArePairsOf, ArePlansOf, FanStands};

    // The stage of a strand that writes these pairs for each record.
    fn of_pairs(alloc: Global, pairs: FanEach, outputs: &[bool]) -> Result<FanStage, NoMemory>
        ensures { IfOk result (λ stage. (s : StrandIs) → s.ports.has_output ≡ outputs.now → ArePairsOf s pairs → FanStands stage s []) }
    {
        Ok(FanStage::Parts(Listed::new(
            alloc,
            Each { each: pairs },
            Order::WritesFirst,
            outputs,
            false,
        )?))
    }

    // The stage of a strand that plans so.
    fn of_plans(alloc: Global, plans: FanPlans, outputs: &[bool]) -> Result<FanStage, NoMemory>
        ensures { IfOk result (λ stage. (s : StrandIs) → s.ports.has_output ≡ outputs.now → ArePlansOf s plans → FanStands stage s []) }
    {
        Ok(FanStage::Joins(Planned::new(alloc, plans, outputs)?))
    }

    /// The stage of a strand, before its first event. No stage of a net has more inputs or outputs than 64.
    pub fn new(alloc: Global, strand: &Strand) -> Result<FanStage, NoMemory>
        requires kind { is_fan strand.now.kind ≡ true }
        requires few_inputs { length strand.now.ports.has_input ≤ 64 }
        requires few_outputs { length strand.now.ports.has_output ≤ 64 }
        ensures { IfOk result (λ stage. FanStands stage strand.now []) }
    {
        let inputs = inputs_of(strand);
        let outputs = strand.ports.has_output.as_slice();
        match &strand.kind {
            Kind::FanOut => {
                let pairs = FanEach::FanOut(FansOut::new(alloc, outputs)?);
                FanStage::of_pairs(alloc, pairs, outputs)
            }
            Kind::Deal => {
                let pairs = FanEach::Deal(Deals::new(alloc, outputs)?);
                FanStage::of_pairs(alloc, pairs, outputs)
            }
            Kind::FanIn => {
                let plans = FanPlans::FanIn(FanIn::new(inputs));
                FanStage::of_plans(alloc, plans, outputs)
            }
            Kind::FanInAny => {
                let plans = FanPlans::FanInAny(FansInAny::new());
                FanStage::of_plans(alloc, plans, outputs)
            }
            Kind::Gather => {
                let plans = FanPlans::Gather(Gather::new(alloc, inputs)?);
                FanStage::of_plans(alloc, plans, outputs)
            }
            Kind::Overlay(pad) => {
                let plans = FanPlans::Overlay(Overlays::new(alloc, inputs, *pad)?);
                FanStage::of_plans(alloc, plans, outputs)
            }
            Kind::Synchronise => {
                let plans = FanPlans::Synchronise(Synchronises::new(alloc, inputs)?);
                FanStage::of_plans(alloc, plans, outputs)
            }
            Kind::Juxtapose => {
                let plans = FanPlans::Juxtapose(Juxtaposes::new(alloc));
                FanStage::of_plans(alloc, plans, outputs)
            }
            _ => unreachable!(),
        }
    }
}

impl Stage for FanStage {
    ghost use Rattle.std.specs.Prelude.{IfOk};
    ghost use Rattle.stage_steps.specs.Coroutine.{Resumes};
    ghost use Rattle.fan_stages.specs.Fan.{FanStands};

    ghost stands = { FanStands };

    fn first(&self) -> Want {
        match self {
            FanStage::Parts(stage) => stage.first(),
            FanStage::Joins(stage) => stage.first(),
        }
    }

    // It may be told any event; what isn't answered ends it.
    fn resume(&mut self, alloc: Global, seen: Seen, bytes: &[u8]) -> Result<Want, NoMemory>
        ensures { IfOk result (λ asked. Resumes FanStands self.old self.new seen bytes.now asked) }
    {
        match self {
            FanStage::Parts(stage) => stage.resume(alloc, seen, bytes),
            FanStage::Joins(stage) => stage.resume(alloc, seen, bytes),
        }
    }

    #[inline(never)]
    fn see(&mut self, alloc: Global, bytes: &[u8], asked: &mut Want) -> Result<Reply, NoMemory> {
        match self {
            FanStage::Parts(stage) => stage.see(alloc, bytes, asked),
            FanStage::Joins(stage) => stage.see(alloc, bytes, asked),
        }
    }

    #[inline(never)]
    fn put(&mut self, alloc: Global, o: u16, asked: &mut Want) -> Result<(), NoMemory> {
        match self {
            FanStage::Parts(stage) => stage.put(alloc, o, asked),
            FanStage::Joins(stage) => stage.put(alloc, o, asked),
        }
    }

    fn looks(&self) -> bool {
        match self {
            FanStage::Parts(stage) => stage.looks(),
            FanStage::Joins(stage) => stage.looks(),
        }
    }

    fn kept(&self) -> &[u8] {
        match self {
            FanStage::Parts(stage) => stage.kept(),
            FanStage::Joins(stage) => stage.kept(),
        }
    }

    fn shown(&self) -> &[u8] {
        &[]
    }

    fn text_ahead(&self) -> &[u8] {
        &[]
    }
}
