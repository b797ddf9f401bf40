ghost use Rattle.std.specs.Prelude.{◌≡◌};
ghost use Rattle.block_stages.specs.Block.{is_block};

use crate::blocks::Blocks;
use crate::deblock::deblock;
use crate::fblock::{block, fblock};
use pipe_model::{Kind, NoMemory, Seen, Strand, Want};
use stage_steps::{Listed, Order, Reply, Stage};
use std::alloc::Global;

/// A stage of Blocks.
#[derive(Drop)]
pub struct BlockStage {
    stage: Listed<Blocks>,
}

/// Whether the kind is one of Blocks.
pub fn is_block(kind: &Kind) -> bool
    ensures { result ≡ is_block kind.now }
{
    matches!(
        kind,
        Kind::Fblock { .. } | Kind::Block { .. } | Kind::Deblock(_)
    )
}

impl BlockStage {
    ghost use Rattle.std.specs.Prelude.{◌≡◌, [], true, IfOk};
    ghost use Rattle.pipe_model.specs.declared.net.Strand.{Strand};
    ghost use Rattle.block_stages.specs.Block.{is_block, BlockStands, AreListsOf};

    // The lists of a kind of Blocks, before the first record.
    fn lists(alloc: Global, kind: &Kind) -> Result<Blocks, NoMemory>
        requires { is_block kind.now ≡ true }
        ensures { IfOk result (λ lists. AreListsOf kind.now lists) }
    {
        match kind {
            Kind::Fblock { size, fill } => Ok(fblock(alloc, *size, *fill)),
            Kind::Block { size, image } => block(alloc, *size, image),
            Kind::Deblock(cutting) => deblock(alloc, cutting),
            _ => unreachable!(),
        }
    }

    // The stage of a kind with these connected outputs, before its first event.
    pub(crate) fn of(alloc: Global, kind: &Kind, outputs: &[bool]) -> Result<BlockStage, NoMemory>
        requires { is_block kind.now ≡ true }
        ensures { IfOk result (λ stage. (s : Strand) → s.kind ≡ kind.now → s.ports.has_output ≡ outputs.now → BlockStands stage s []) }
    {
        let lists = BlockStage::lists(alloc, kind)?;
        Ok(BlockStage {
            stage: Listed::new(alloc, lists, Order::TakesFirst, outputs, false)?,
        })
    }

    /// The stage of a strand, before its first event.
    pub fn new(alloc: Global, strand: &Strand) -> Result<BlockStage, NoMemory>
        requires { is_block strand.now.kind ≡ true }
        ensures { IfOk result (λ stage. BlockStands stage strand.now []) }
    {
        BlockStage::of(alloc, &strand.kind, strand.ports.has_output.as_slice())
    }
}

impl Stage for BlockStage {
    ghost use Rattle.std.specs.Prelude.{IfOk};
    ghost use Rattle.stage_steps.specs.Coroutine.{Resumes};
    ghost use Rattle.block_stages.specs.Block.{BlockStands};

    ghost stands = { BlockStands };

    fn first(&self) -> Want {
        self.stage.first()
    }

    // It may be told any event; what isn't answered ends it.
    fn resume(&mut self, alloc: Global, seen: Seen, bytes: &[u8]) -> Result<Want, NoMemory>
        ensures { IfOk result (λ asked. Resumes BlockStands self.old self.new seen bytes.now asked) }
    {
        self.stage.resume(alloc, seen, bytes)
    }

    #[inline(never)]
    fn see(&mut self, alloc: Global, bytes: &[u8], asked: &mut Want) -> Result<Reply, NoMemory> {
        self.stage.see(alloc, bytes, asked)
    }

    #[inline(never)]
    fn put(&mut self, alloc: Global, o: u16, asked: &mut Want) -> Result<(), NoMemory> {
        self.stage.put(alloc, o, asked)
    }

    fn looks(&self) -> bool {
        self.stage.looks()
    }

    fn kept(&self) -> &[u8] {
        self.stage.kept()
    }

    fn shown(&self) -> &[u8] {
        &[]
    }

    fn text_ahead(&self) -> &[u8] {
        &[]
    }
}
