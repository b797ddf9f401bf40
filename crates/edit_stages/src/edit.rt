ghost use Rattle.std.specs.Prelude.{◌≡◌};
ghost use Rattle.edit_stages.specs.Edit.{is_edit};

use crate::any_lists::AnyLists;
use pipe_model::{Kind, NoMemory, Seen, Strand, Want};
use stage_steps::{Listed, Reply, Stage};
use std::alloc::Global;

/// A stage of Editing.
#[derive(Drop)]
pub struct EditStage {
    stage: Listed<AnyLists>,
}

/// Whether the kind is one of Editing.
pub fn is_edit(kind: &Kind) -> bool
    ensures { result ≡ is_edit kind.now }
{
    matches!(
        kind,
        Kind::Change { .. }
            | Kind::Strip { .. }
            | Kind::Chop(_)
            | Kind::Pad { .. }
            | Kind::Split { .. }
            | Kind::Join { .. }
            | Kind::Xlate(_)
            | Kind::Reverse
            | Kind::Duplicate(_)
    )
}

impl EditStage {
    ghost use Rattle.std.specs.Prelude.{◌≡◌, [], true, IfOk};
    ghost use Rattle.pipe_model.specs.declared.net.Strand.{Strand};
    ghost use Rattle.edit_stages.specs.Edit.{is_edit, EditStands};

    // The stage of a kind with these connected outputs, before its first event.
    pub(crate) fn of(alloc: Global, kind: &Kind, outputs: &[bool]) -> Result<EditStage, NoMemory>
        requires { is_edit kind.now ≡ true }
        ensures { IfOk result (λ stage. (s : Strand) → s.kind ≡ kind.now → s.ports.has_output ≡ outputs.now → EditStands stage s []) }
    {
        let lists = AnyLists::new(alloc, kind)?;
        let order = lists.order();
        Ok(EditStage {
            stage: Listed::new(alloc, lists, order, outputs, false)?,
        })
    }

    /// The stage of a strand, before its first event.
    pub fn new(alloc: Global, strand: &Strand) -> Result<EditStage, NoMemory>
        requires { is_edit strand.now.kind ≡ true }
        ensures { IfOk result (λ stage. EditStands stage strand.now []) }
    {
        EditStage::of(alloc, &strand.kind, strand.ports.has_output.as_slice())
    }
}

impl Stage for EditStage {
    ghost use Rattle.std.specs.Prelude.{IfOk};
    ghost use Rattle.stage_steps.specs.Coroutine.{Resumes};
    ghost use Rattle.edit_stages.specs.Edit.{EditStands};

    ghost stands = { EditStands };

    fn first(&self) -> Want {
        self.stage.first()
    }

    // It may be told any event; what isn't answered ends it.
    fn resume(&mut self, alloc: Global, seen: Seen, bytes: &[u8]) -> Result<Want, NoMemory>
        ensures { IfOk result (λ asked. Resumes EditStands self.old self.new seen bytes.now asked) }
    {
        self.stage.resume(alloc, seen, bytes)
    }

    #[inline(never)]
    fn see(&mut self, alloc: Global, bytes: &[u8], asked: &mut Want) -> Result<Reply, NoMemory> {
        self.stage.see(alloc, bytes, asked)
    }

    #[inline(never)]
    fn put(&mut self, alloc: Global, o: u16, asked: &mut Want) -> Result<(), NoMemory> {
        self.stage.put(alloc, o, asked)
    }

    #[inline(always)]
    fn passes(&mut self) -> bool {
        self.stage.passes()
    }

    fn looks(&self) -> bool {
        self.stage.looks()
    }

    fn kept(&self) -> &[u8] {
        self.stage.kept()
    }

    fn shown(&self) -> &[u8] {
        &[]
    }

    fn text_ahead(&self) -> &[u8] {
        &[]
    }
}
