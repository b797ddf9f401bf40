ghost use Rattle.std.specs.Prelude.{◌≡◌};
ghost use Rattle.select_stages.specs.Select.{is_select};

use crate::any_pick::AnyPick;
use crate::picks::Picked;
use crate::select_lists::SelectLists;
use crate::window::Window;
use pipe_model::{Kind, NoMemory, Seen, Strand, Want};
use stage_steps::{Listed, Order, Reply, Sought, Stage};
use std::alloc::Global;

/// A stage of Selection.
#[derive(Drop)]
pub struct SelectStage {
    stage: Listed<SelectLists>,
}

/// Whether the kind is one of Selection.
pub fn is_select(kind: &Kind) -> bool
    ensures { result ≡ is_select kind.now }
{
    matches!(
        kind,
        Kind::Locate { .. }
            | Kind::Nlocate { .. }
            | Kind::Find { .. }
            | Kind::Nfind { .. }
            | Kind::TakeFirst(_)
            | Kind::TakeLast(_)
            | Kind::DropFirst(_)
            | Kind::DropLast(_)
            | Kind::Between { .. }
            | Kind::Inside { .. }
            | Kind::ToLabel { .. }
            | Kind::FrLabel { .. }
    )
}

impl SelectStage {
    ghost use Rattle.std.specs.Prelude.{◌≡◌, [], true, IfOk};
    ghost use Rattle.pipe_model.specs.declared.kind.Kind.{Kind as KindIs};
    ghost use Rattle.select_stages.specs.AnyPick.{IsPickOf};
    ghost use Rattle.select_stages.specs.Windows.{IsWindowOf};
    ghost use Rattle.select_stages.specs.Select.{is_select, SelectStands, IsSelectOf};

    // The stage of the kind that picks so.
    fn of_picks(alloc: Global, picks: AnyPick, outputs: &[bool]) -> Result<SelectStage, NoMemory>
        ensures { IfOk result (λ stage. (kind : KindIs) → IsPickOf picks kind outputs.now → IsSelectOf kind outputs.now stage) }
    {
        let lists = SelectLists::Pick(Picked {
            picks,
            waiting: None,
        });
        let stage = Listed::new(alloc, lists, Order::WritesFirst, outputs, false)?;
        Ok(SelectStage { stage })
    }

    // The stage of the kind that holds such a window.
    fn of_window(alloc: Global, window: Window, outputs: &[bool]) -> Result<SelectStage, NoMemory>
        ensures { IfOk result (λ stage. (kind : KindIs) → IsWindowOf window kind → IsSelectOf kind outputs.now stage) }
    {
        let lists = SelectLists::Hold(window);
        let stage = Listed::new(alloc, lists, Order::TakesFirst, outputs, false)?;
        Ok(SelectStage { stage })
    }

    /// The stage of a strand, before its first event.
    pub fn new(alloc: Global, strand: &Strand) -> Result<SelectStage, NoMemory>
        requires { is_select strand.now.kind ≡ true }
        ensures { IfOk result (λ stage. SelectStands stage strand.now []) }
    {
        let outputs = strand.ports.has_output.as_slice();
        match &strand.kind {
            Kind::TakeLast(times) => {
                let window = Window::new(alloc, *times, 1, 0);
                SelectStage::of_window(alloc, window, outputs)
            }
            Kind::DropLast(times) => {
                let window = Window::new(alloc, *times, 0, 1);
                SelectStage::of_window(alloc, window, outputs)
            }
            kind => {
                let picks = AnyPick::new(alloc, kind, outputs)?;
                SelectStage::of_picks(alloc, picks, outputs)
            }
        }
    }
}

impl Stage for SelectStage {
    ghost use Rattle.std.specs.Prelude.{IfOk};
    ghost use Rattle.stage_steps.specs.Coroutine.{Resumes};
    ghost use Rattle.select_stages.specs.Select.{SelectStands};

    ghost stands = { SelectStands };

    fn first(&self) -> Want {
        self.stage.first()
    }

    // It may be told any event; what isn't answered ends it.
    fn resume(&mut self, alloc: Global, seen: Seen, bytes: &[u8]) -> Result<Want, NoMemory>
        ensures { IfOk result (λ asked. Resumes SelectStands self.old self.new seen bytes.now asked) }
    {
        self.stage.resume(alloc, seen, bytes)
    }

    #[inline(never)]
    fn see(&mut self, alloc: Global, bytes: &[u8], asked: &mut Want) -> Result<Reply, NoMemory> {
        self.stage.see(alloc, bytes, asked)
    }

    #[inline(never)]
    fn put(&mut self, alloc: Global, o: u16, asked: &mut Want) -> Result<(), NoMemory> {
        self.stage.put(alloc, o, asked)
    }

    #[inline(never)]
    fn awaits(&self) -> Option<&Sought> {
        self.stage.awaits()
    }

    #[inline(always)]
    fn passes(&mut self) -> bool {
        self.stage.passes()
    }

    fn looks(&self) -> bool {
        self.stage.looks()
    }

    fn kept(&self) -> &[u8] {
        self.stage.kept()
    }

    fn shown(&self) -> &[u8] {
        &[]
    }

    fn text_ahead(&self) -> &[u8] {
        &[]
    }
}
