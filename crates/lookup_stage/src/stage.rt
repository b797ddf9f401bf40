ghost use Rattle.std.specs.Prelude.{◌≡◌};
ghost use Rattle.lookup_stage.specs.LookupStage.{is_lookup};

use crate::lookup::Lookup;
use pipe_model::{Kind, NoMemory, Seen, Strand, Want};
use stage_steps::{Planned, Reply, Stage};
use std::alloc::Global;

/// LOOKUP.
#[derive(Drop)]
pub struct LookupStage {
    stage: Planned<Lookup>,
}

/// Whether the kind is LOOKUP.
pub fn is_lookup(kind: &Kind) -> bool
    ensures { result ≡ is_lookup kind.now }
{
    matches!(kind, Kind::Lookup { .. })
}

impl LookupStage {
    ghost use Rattle.std.specs.Prelude.{◌≡◌, [], true, IfOk};
    ghost use Rattle.pipe_model.specs.declared.net.Strand.{Strand};
    ghost use Rattle.lookup_stage.specs.LookupStage.{is_lookup, LookupStands};

    // The stage of a kind with these connected outputs, before its first event.
    pub(crate) fn of(alloc: Global, kind: &Kind, outputs: &[bool]) -> Result<LookupStage, NoMemory>
        requires { is_lookup kind.now ≡ true }
        ensures { IfOk result (λ stage. (s : Strand) → s.kind ≡ kind.now → s.ports.has_output ≡ outputs.now → LookupStands stage s []) }
    {
        match kind {
            Kind::Lookup { details, masters } => {
                let plans = Lookup::new(alloc, *details, *masters);
                Ok(LookupStage {
                    stage: Planned::new(alloc, plans, outputs)?,
                })
            }
            _ => unreachable!(),
        }
    }

    /// The stage of a strand, before its first event.
    pub fn new(alloc: Global, strand: &Strand) -> Result<LookupStage, NoMemory>
        requires { is_lookup strand.now.kind ≡ true }
        ensures { IfOk result (λ stage. LookupStands stage strand.now []) }
    {
        LookupStage::of(alloc, &strand.kind, strand.ports.has_output.as_slice())
    }
}

impl Stage for LookupStage {
    ghost use Rattle.std.specs.Prelude.{IfOk};
    ghost use Rattle.stage_steps.specs.Coroutine.{Resumes};
    ghost use Rattle.lookup_stage.specs.LookupStage.{LookupStands};

    ghost stands = { LookupStands };

    fn first(&self) -> Want {
        self.stage.first()
    }

    // It may be told any event; what isn't answered ends it.
    fn resume(&mut self, alloc: Global, seen: Seen, bytes: &[u8]) -> Result<Want, NoMemory>
        ensures { IfOk result (λ asked. Resumes LookupStands self.old self.new seen bytes.now asked) }
    {
        self.stage.resume(alloc, seen, bytes)
    }

    #[inline(never)]
    fn see(&mut self, alloc: Global, bytes: &[u8], asked: &mut Want) -> Result<Reply, NoMemory> {
        self.stage.see(alloc, bytes, asked)
    }

    #[inline(never)]
    fn put(&mut self, alloc: Global, o: u16, asked: &mut Want) -> Result<(), NoMemory> {
        self.stage.put(alloc, o, asked)
    }

    fn looks(&self) -> bool {
        self.stage.looks()
    }

    fn kept(&self) -> &[u8] {
        self.stage.kept()
    }

    fn shown(&self) -> &[u8] {
        &[]
    }

    fn text_ahead(&self) -> &[u8] {
        &[]
    }
}
