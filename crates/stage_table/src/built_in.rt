use block_stages::BlockStage;
use collate_stage::CollateStage;
use device_stages::DeviceStage;
use edit_stages::EditStage;
use fan_stages::FanStage;
use gate_elastic::GateStage;
use lookup_stage::LookupStage;
use pipe_model::{NoMemory, Seen, Want};
use select_stages::SelectStage;
use specs_stage::SpecsStage;
use stage_steps::{Reply, Sought, Stage};
use std::alloc::Global;
use unique_sort::UniqueStage;

/// A built-in stage, by its family. It is boxed, since a coroutine that goes out with a job is moved, and a box is moved
/// at the cost of a pointer.
#[derive(Drop)]
pub enum BuiltIn {
    Device(Box<DeviceStage>),
    Select(Box<SelectStage>),
    Edit(Box<EditStage>),
    Order(Box<UniqueStage>),
    Block(Box<BlockStage>),
    Specs(Box<SpecsStage>),
    Gate(Box<GateStage>),
    Fan(Box<FanStage>),
    Lookup(Box<LookupStage>),
    Collate(Box<CollateStage>),
}

impl Stage for BuiltIn {
    ghost use Rattle.std.specs.Prelude.{IfOk};
    ghost use Rattle.stage_steps.specs.Coroutine.{Resumes};
    ghost use Rattle.stage_table.specs.BuiltIn.{BuiltInStands, built_in_showing, built_in_ahead};

    ghost stands = { BuiltInStands };

    ghost showing = { built_in_showing };

    ghost ahead = { built_in_ahead };

    fn first(&self) -> Want {
        match self {
            BuiltIn::Device(stage) => stage.first(),
            BuiltIn::Select(stage) => stage.first(),
            BuiltIn::Edit(stage) => stage.first(),
            BuiltIn::Order(stage) => stage.first(),
            BuiltIn::Block(stage) => stage.first(),
            BuiltIn::Specs(stage) => stage.first(),
            BuiltIn::Gate(stage) => stage.first(),
            BuiltIn::Fan(stage) => stage.first(),
            BuiltIn::Lookup(stage) => stage.first(),
            BuiltIn::Collate(stage) => stage.first(),
        }
    }

    // It may be told any event; what isn't answered ends it. It is a call of its own, as `passes` and each family's `see` and `put` are:
    // they stand in the loop that runs the stages, and that loop has few registers.
    #[inline(never)]
    fn resume(&mut self, alloc: Global, seen: Seen, bytes: &[u8]) -> Result<Want, NoMemory>
        ensures { IfOk result (λ asked. Resumes BuiltInStands self.old self.new seen bytes.now asked) }
    {
        match self {
            BuiltIn::Device(stage) => (**stage).resume(alloc, seen, bytes),
            BuiltIn::Select(stage) => (**stage).resume(alloc, seen, bytes),
            BuiltIn::Edit(stage) => (**stage).resume(alloc, seen, bytes),
            BuiltIn::Order(stage) => (**stage).resume(alloc, seen, bytes),
            BuiltIn::Block(stage) => (**stage).resume(alloc, seen, bytes),
            BuiltIn::Specs(stage) => (**stage).resume(alloc, seen, bytes),
            BuiltIn::Gate(stage) => (**stage).resume(alloc, seen, bytes),
            BuiltIn::Fan(stage) => (**stage).resume(alloc, seen, bytes),
            BuiltIn::Lookup(stage) => (**stage).resume(alloc, seen, bytes),
            BuiltIn::Collate(stage) => (**stage).resume(alloc, seen, bytes),
        }
    }

    #[inline(always)]
    fn see(&mut self, alloc: Global, bytes: &[u8], asked: &mut Want) -> Result<Reply, NoMemory> {
        match self {
            BuiltIn::Device(stage) => (**stage).see(alloc, bytes, asked),
            BuiltIn::Select(stage) => (**stage).see(alloc, bytes, asked),
            BuiltIn::Edit(stage) => (**stage).see(alloc, bytes, asked),
            BuiltIn::Order(stage) => (**stage).see(alloc, bytes, asked),
            BuiltIn::Block(stage) => (**stage).see(alloc, bytes, asked),
            BuiltIn::Specs(stage) => (**stage).see(alloc, bytes, asked),
            BuiltIn::Gate(stage) => (**stage).see(alloc, bytes, asked),
            BuiltIn::Fan(stage) => (**stage).see(alloc, bytes, asked),
            BuiltIn::Lookup(stage) => (**stage).see(alloc, bytes, asked),
            BuiltIn::Collate(stage) => (**stage).see(alloc, bytes, asked),
        }
    }

    #[inline(always)]
    fn put(&mut self, alloc: Global, o: u16, asked: &mut Want) -> Result<(), NoMemory> {
        match self {
            BuiltIn::Device(stage) => (**stage).put(alloc, o, asked),
            BuiltIn::Select(stage) => (**stage).put(alloc, o, asked),
            BuiltIn::Edit(stage) => (**stage).put(alloc, o, asked),
            BuiltIn::Order(stage) => (**stage).put(alloc, o, asked),
            BuiltIn::Block(stage) => (**stage).put(alloc, o, asked),
            BuiltIn::Specs(stage) => (**stage).put(alloc, o, asked),
            BuiltIn::Gate(stage) => (**stage).put(alloc, o, asked),
            BuiltIn::Fan(stage) => (**stage).put(alloc, o, asked),
            BuiltIn::Lookup(stage) => (**stage).put(alloc, o, asked),
            BuiltIn::Collate(stage) => (**stage).put(alloc, o, asked),
        }
    }

    #[inline(always)]
    fn show(&mut self, o: u16) -> bool {
        match self {
            BuiltIn::Device(stage) => (**stage).show(o),
            _ => false,
        }
    }

    #[inline(always)]
    fn shown(&self) -> &[u8] {
        match self {
            BuiltIn::Device(stage) => (**stage).shown(),
            _ => &[],
        }
    }

    #[inline(always)]
    fn text_ahead(&self) -> &[u8] {
        match self {
            BuiltIn::Device(stage) => (**stage).text_ahead(),
            _ => &[],
        }
    }

    #[inline(always)]
    fn awaits(&self) -> Option<&Sought> {
        match self {
            BuiltIn::Select(stage) => (**stage).awaits(),
            _ => None,
        }
    }

    #[inline(never)]
    fn passes(&mut self) -> bool {
        match self {
            BuiltIn::Device(stage) => (**stage).passes(),
            BuiltIn::Select(stage) => (**stage).passes(),
            BuiltIn::Edit(stage) => (**stage).passes(),
            BuiltIn::Order(stage) => (**stage).passes(),
            BuiltIn::Specs(stage) => (**stage).passes(),
            _ => false,
        }
    }

    fn looks(&self) -> bool {
        match self {
            BuiltIn::Device(stage) => stage.looks(),
            BuiltIn::Select(stage) => stage.looks(),
            BuiltIn::Edit(stage) => stage.looks(),
            BuiltIn::Order(stage) => stage.looks(),
            BuiltIn::Block(stage) => stage.looks(),
            BuiltIn::Specs(stage) => stage.looks(),
            BuiltIn::Gate(stage) => stage.looks(),
            BuiltIn::Fan(stage) => stage.looks(),
            BuiltIn::Lookup(stage) => stage.looks(),
            BuiltIn::Collate(stage) => stage.looks(),
        }
    }

    fn kept(&self) -> &[u8] {
        match self {
            BuiltIn::Device(stage) => stage.kept(),
            BuiltIn::Select(stage) => stage.kept(),
            BuiltIn::Edit(stage) => stage.kept(),
            BuiltIn::Order(stage) => stage.kept(),
            BuiltIn::Block(stage) => stage.kept(),
            BuiltIn::Specs(stage) => stage.kept(),
            BuiltIn::Gate(stage) => stage.kept(),
            BuiltIn::Fan(stage) => stage.kept(),
            BuiltIn::Lookup(stage) => stage.kept(),
            BuiltIn::Collate(stage) => stage.kept(),
        }
    }
}
