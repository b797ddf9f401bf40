ghost use Rattle.std.specs.Prelude.{◌≡◌, IfOk};
ghost use Rattle.specs_stage.specs.SpecsStage.{is_specs};

use crate::copies::copied;
use crate::specs_lists::SpecsLists;
use pipe_model::{Items, Kind, NoMemory, Seen, Strand, Want};
use stage_steps::{Listed, Reply, Stage};
use std::alloc::Global;

/// A stage of SPECS.
#[derive(Drop)]
pub struct SpecsStage {
    stage: Listed<SpecsLists>,
}

/// Whether the kind is SPECS.
pub fn is_specs(kind: &Kind) -> bool
    ensures { result ≡ is_specs kind.now }
{
    matches!(kind, Kind::Specs { .. })
}

// A copy of an EOF list, where there is one.
fn copied_eof(alloc: Global, eof: &Option<Items>) -> Result<Option<Items>, NoMemory>
    ensures { IfOk result (λ copy. copy ≡ eof.now) }
{
    match eof {
        Some(items) => Ok(Some(Items::from_vec(copied(alloc, items.as_slice())?))),
        None => Ok(None),
    }
}

impl SpecsStage {
    ghost use Rattle.std.specs.Prelude.{◌≡◌, [], true, IfOk};
    ghost use Rattle.pipe_model.specs.declared.net.Strand.{Strand};
    ghost use Rattle.specs_stage.specs.SpecsStage.{is_specs, SpecsStageStands, AreListsOf};

    // The lists of a kind of SPECS, before the first record.
    fn lists(alloc: Global, kind: &Kind) -> Result<SpecsLists, NoMemory>
        requires { is_specs kind.now ≡ true }
        ensures { IfOk result (λ lists. AreListsOf kind.now lists) }
    {
        match kind {
            Kind::Specs { items, eof } => {
                let items = copied(alloc, items.as_slice())?;
                let eof = copied_eof(alloc, eof)?;
                Ok(SpecsLists::new(alloc, items, eof))
            }
            _ => unreachable!(),
        }
    }

    // The stage of a kind with these connected outputs, before its first event.
    pub(crate) fn of(alloc: Global, kind: &Kind, outputs: &[bool]) -> Result<SpecsStage, NoMemory>
        requires { is_specs kind.now ≡ true }
        ensures { IfOk result (λ stage. (s : Strand) → s.kind ≡ kind.now → s.ports.has_output ≡ outputs.now → SpecsStageStands stage s []) }
    {
        let lists = SpecsStage::lists(alloc, kind)?;
        let order = lists.order();
        Ok(SpecsStage {
            stage: Listed::new(alloc, lists, order, outputs, false)?,
        })
    }

    /// The stage of a strand, before its first event.
    pub fn new(alloc: Global, strand: &Strand) -> Result<SpecsStage, NoMemory>
        requires { is_specs strand.now.kind ≡ true }
        ensures { IfOk result (λ stage. SpecsStageStands stage strand.now []) }
    {
        SpecsStage::of(alloc, &strand.kind, strand.ports.has_output.as_slice())
    }
}

impl Stage for SpecsStage {
    ghost use Rattle.std.specs.Prelude.{IfOk};
    ghost use Rattle.stage_steps.specs.Coroutine.{Resumes};
    ghost use Rattle.specs_stage.specs.SpecsStage.{SpecsStageStands};

    ghost stands = { SpecsStageStands };

    fn first(&self) -> Want {
        self.stage.first()
    }

    // It may be told any event; what isn't answered ends it.
    fn resume(&mut self, alloc: Global, seen: Seen, bytes: &[u8]) -> Result<Want, NoMemory>
        ensures { IfOk result (λ asked. Resumes SpecsStageStands self.old self.new seen bytes.now asked) }
    {
        self.stage.resume(alloc, seen, bytes)
    }

    #[inline(never)]
    fn see(&mut self, alloc: Global, bytes: &[u8], asked: &mut Want) -> Result<Reply, NoMemory> {
        self.stage.see(alloc, bytes, asked)
    }

    #[inline(never)]
    fn put(&mut self, alloc: Global, o: u16, asked: &mut Want) -> Result<(), NoMemory> {
        self.stage.put(alloc, o, asked)
    }

    #[inline(always)]
    fn passes(&mut self) -> bool {
        self.stage.passes()
    }

    fn looks(&self) -> bool {
        self.stage.looks()
    }

    fn kept(&self) -> &[u8] {
        self.stage.kept()
    }

    fn shown(&self) -> &[u8] {
        &[]
    }

    fn text_ahead(&self) -> &[u8] {
        &[]
    }
}
