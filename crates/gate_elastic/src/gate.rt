use crate::buffer::Buffers;
use crate::dam_plan::Dams;
use crate::gate_lists::GateLists;
use crate::gate_plan::Gates;
use pipe_model::{Kind, NoMemory, Seen, Strand, Want};
use stage_steps::{Copies, Listed, Order, Planned, Reply, Stage};
use std::alloc::Global;

/// A stage that passes on what it reads.
#[derive(Drop)]
pub enum GateStage {
    Lists(Listed<GateLists>),
    Gate(Planned<Gates>),
    Dam(Planned<Dams>),
}

impl GateStage {
    ghost use Rattle.std.specs.Prelude.{◌≡◌, ◌≢◌, true, [], IfOk};
    ghost use Rattle.pipe_model.specs.declared.kind.Kind.TheVariants as Kinds;
    ghost use Rattle.pipe_model.specs.declared.net.Strand.{Strand as StrandIs};
    ghost use Rattle.gate_elastic.specs.Gate.{is_gate, GateStands};
    ghost use Rattle.gate_elastic.specs.GateLists.{AreListsOf, AreCopies};

    // The stage of the strands that have these lists in this order, with these connected outputs, before its first event.
    pub(crate) fn of_lists(
        alloc: Global,
        lists: GateLists,
        order: Order,
        outputs: &[bool],
    ) -> Result<GateStage, NoMemory>
        ensures { IfOk result (λ stage. (s : StrandIs) → AreListsOf s order lists → s.ports.has_output ≡ outputs.now → GateStands stage s []) }
    {
        Ok(GateStage::Lists(Listed::new(alloc, lists, order, outputs, false)?))
    }

    // The stage of the strands that copy each record in this order, with these connected outputs, before its first event.
    pub(crate) fn of_copies(
        alloc: Global,
        order: Order,
        outputs: &[bool],
    ) -> Result<GateStage, NoMemory>
        ensures { IfOk result (λ stage. (s : StrandIs) → AreCopies s order → s.ports.has_output ≡ outputs.now → GateStands stage s []) }
    {
        GateStage::of_lists(alloc, GateLists::Copy(Copies::lists(false)), order, outputs)
    }

    // GATE with these connected outputs, before its first event.
    pub(crate) fn of_gate(alloc: Global, outputs: &[bool]) -> Result<GateStage, NoMemory>
        ensures { IfOk result (λ stage. (s : StrandIs) → s.kind ≡ Kinds.Gate → s.ports.has_output ≡ outputs.now → GateStands stage s []) }
    {
        Ok(GateStage::Gate(Planned::new(alloc, Gates::new(), outputs)?))
    }

    // A strand of DAM that isn't the first, with these connected outputs, before its first event.
    pub(crate) fn of_dam(alloc: Global, outputs: &[bool]) -> Result<GateStage, NoMemory>
        ensures { IfOk result (λ stage. (s : StrandIs) → s.kind ≡ Kinds.Dam → s.part ≢ 0 → s.ports.has_output ≡ outputs.now → GateStands stage s []) }
    {
        Ok(GateStage::Dam(Planned::new(alloc, Dams::new(), outputs)?))
    }

    /// The stage of a strand, before its first event.
    pub fn new(alloc: Global, strand: &Strand) -> Result<GateStage, NoMemory>
        requires { is_gate strand.now.kind ≡ true }
        ensures { IfOk result (λ stage. GateStands stage strand.now []) }
    {
        let outputs = strand.ports.has_output.as_slice();
        match &strand.kind {
            Kind::Copy | Kind::Elastic => GateStage::of_copies(alloc, Order::TakesFirst, outputs),
            Kind::Buffer => {
                let lists = GateLists::Buffer(Buffers::new(alloc));
                GateStage::of_lists(alloc, lists, Order::TakesFirst, outputs)
            }
            Kind::Gate => GateStage::of_gate(alloc, outputs),
            Kind::Dam => if strand.part == 0 {
                GateStage::of_copies(alloc, Order::WritesFirst, outputs)
            } else {
                GateStage::of_dam(alloc, outputs)
            },
            _ => unreachable!(),
        }
    }
}

impl Stage for GateStage {
    ghost use Rattle.std.specs.Prelude.{IfOk};
    ghost use Rattle.stage_steps.specs.Coroutine.{Resumes};
    ghost use Rattle.gate_elastic.specs.Gate.{GateStands};

    ghost stands = { GateStands };

    fn first(&self) -> Want {
        match self {
            GateStage::Lists(stage) => stage.first(),
            GateStage::Gate(stage) => stage.first(),
            GateStage::Dam(stage) => stage.first(),
        }
    }

    // It may be told any event; what isn't answered ends it.
    fn resume(&mut self, alloc: Global, seen: Seen, bytes: &[u8]) -> Result<Want, NoMemory>
        ensures { IfOk result (λ asked. Resumes GateStands self.old self.new seen bytes.now asked) }
    {
        match self {
            GateStage::Lists(stage) => stage.resume(alloc, seen, bytes),
            GateStage::Gate(stage) => stage.resume(alloc, seen, bytes),
            GateStage::Dam(stage) => stage.resume(alloc, seen, bytes),
        }
    }

    #[inline(never)]
    fn see(&mut self, alloc: Global, bytes: &[u8], asked: &mut Want) -> Result<Reply, NoMemory> {
        match self {
            GateStage::Lists(stage) => stage.see(alloc, bytes, asked),
            GateStage::Gate(stage) => stage.see(alloc, bytes, asked),
            GateStage::Dam(stage) => stage.see(alloc, bytes, asked),
        }
    }

    #[inline(never)]
    fn put(&mut self, alloc: Global, o: u16, asked: &mut Want) -> Result<(), NoMemory> {
        match self {
            GateStage::Lists(stage) => stage.put(alloc, o, asked),
            GateStage::Gate(stage) => stage.put(alloc, o, asked),
            GateStage::Dam(stage) => stage.put(alloc, o, asked),
        }
    }

    fn looks(&self) -> bool {
        match self {
            GateStage::Lists(stage) => stage.looks(),
            GateStage::Gate(stage) => stage.looks(),
            GateStage::Dam(stage) => stage.looks(),
        }
    }

    fn kept(&self) -> &[u8] {
        match self {
            GateStage::Lists(stage) => stage.kept(),
            GateStage::Gate(stage) => stage.kept(),
            GateStage::Dam(stage) => stage.kept(),
        }
    }

    fn shown(&self) -> &[u8] {
        &[]
    }

    fn text_ahead(&self) -> &[u8] {
        &[]
    }
}
