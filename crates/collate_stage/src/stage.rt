ghost use Rattle.std.specs.Prelude.{◌≡◌};
ghost use Rattle.collate_stage.specs.Plans.{is_collate};

use crate::collating::Collating;
use pipe_model::{Kind, NoMemory, Seen, Strand, Want};
use stage_steps::{Planned, Reply, Stage};
use std::alloc::Global;

/// A stage COLLATE or MERGE.
#[derive(Drop)]
pub struct CollateStage {
    stage: Planned<Collating>,
}

/// Whether the kind is COLLATE or MERGE.
pub fn is_collate(kind: &Kind) -> bool
    ensures { result ≡ is_collate kind.now }
{
    matches!(kind, Kind::Collate { .. } | Kind::Merge(_))
}

impl CollateStage {
    ghost use Rattle.std.specs.Prelude.{◌≡◌, ◌≤◌, [], true, length, IfOk};
    ghost use Rattle.collate_stage.specs.Plans.{is_collate};
    ghost use Rattle.collate_stage.specs.Stage.{CollateStands};

    /// The stage of a strand, before its first event. No stage of a net has more inputs than 64.
    pub fn new(alloc: Global, strand: &Strand) -> Result<CollateStage, NoMemory>
        requires kind { is_collate strand.now.kind ≡ true }
        requires few { length strand.now.ports.has_input ≤ 64 }
        ensures { IfOk result (λ stage. CollateStands stage strand.now []) }
    {
        let plans = Collating::new(alloc, strand)?;
        Ok(CollateStage {
            stage: Planned::new(alloc, plans, strand.ports.has_output.as_slice())?,
        })
    }
}

impl Stage for CollateStage {
    ghost use Rattle.std.specs.Prelude.{IfOk};
    ghost use Rattle.stage_steps.specs.Coroutine.{Resumes};
    ghost use Rattle.collate_stage.specs.Stage.{CollateStands};

    ghost stands = { CollateStands };

    fn first(&self) -> Want {
        self.stage.first()
    }

    // It may be told any event; what isn't answered ends it.
    fn resume(&mut self, alloc: Global, seen: Seen, bytes: &[u8]) -> Result<Want, NoMemory>
        ensures { IfOk result (λ asked. Resumes CollateStands self.old self.new seen bytes.now asked) }
    {
        self.stage.resume(alloc, seen, bytes)
    }

    #[inline(never)]
    fn see(&mut self, alloc: Global, bytes: &[u8], asked: &mut Want) -> Result<Reply, NoMemory> {
        self.stage.see(alloc, bytes, asked)
    }

    #[inline(never)]
    fn put(&mut self, alloc: Global, o: u16, asked: &mut Want) -> Result<(), NoMemory> {
        self.stage.put(alloc, o, asked)
    }

    fn looks(&self) -> bool {
        self.stage.looks()
    }

    fn kept(&self) -> &[u8] {
        self.stage.kept()
    }

    fn shown(&self) -> &[u8] {
        &[]
    }

    fn text_ahead(&self) -> &[u8] {
        &[]
    }
}
