ghost use Rattle.std.specs.Prelude.{◌≡◌};
ghost use Rattle.unique_sort.specs.OrderStage.{is_order};

use crate::order_lists::OrderLists;
use pipe_model::{Kind, NoMemory, Seen, Strand, Want};
use stage_steps::{Listed, Reply, Stage};
use std::alloc::Global;

/// UNIQUE, SORT or COUNT.
#[derive(Drop)]
pub struct UniqueStage {
    stage: Listed<OrderLists>,
}

/// Whether the kind is UNIQUE, SORT or COUNT.
pub fn is_order(kind: &Kind) -> bool
    ensures { result ≡ is_order kind.now }
{
    matches!(kind, Kind::Unique { .. } | Kind::Sort(_) | Kind::Count(_))
}

impl UniqueStage {
    ghost use Rattle.std.specs.Prelude.{◌≡◌, [], true, IfOk};
    ghost use Rattle.pipe_model.specs.declared.net.Strand.{Strand};
    ghost use Rattle.unique_sort.specs.OrderStage.{is_order, UniqueStands};

    // The stage of a kind with these connected outputs, before its first event.
    fn of(alloc: Global, kind: &Kind, outputs: &[bool]) -> Result<UniqueStage, NoMemory>
        requires { is_order kind.now ≡ true }
        ensures { IfOk result (λ stage. (s : Strand) → s.kind ≡ kind.now → s.ports.has_output ≡ outputs.now → UniqueStands stage s []) }
    {
        let lists = OrderLists::new(alloc, kind)?;
        let order = lists.order();
        Ok(UniqueStage {
            stage: Listed::new(alloc, lists, order, outputs, false)?,
        })
    }

    /// The stage of a strand, before its first event.
    pub fn new(alloc: Global, strand: &Strand) -> Result<UniqueStage, NoMemory>
        requires { is_order strand.now.kind ≡ true }
        ensures { IfOk result (λ stage. UniqueStands stage strand.now []) }
    {
        UniqueStage::of(alloc, &strand.kind, strand.ports.has_output.as_slice())
    }
}

impl Stage for UniqueStage {
    ghost use Rattle.std.specs.Prelude.{IfOk};
    ghost use Rattle.stage_steps.specs.Coroutine.{Resumes};
    ghost use Rattle.unique_sort.specs.OrderStage.{UniqueStands};

    ghost stands = { UniqueStands };

    fn first(&self) -> Want {
        self.stage.first()
    }

    // It may be told any event; what isn't answered ends it.
    fn resume(&mut self, alloc: Global, seen: Seen, bytes: &[u8]) -> Result<Want, NoMemory>
        ensures { IfOk result (λ asked. Resumes UniqueStands self.old self.new seen bytes.now asked) }
    {
        self.stage.resume(alloc, seen, bytes)
    }

    #[inline(never)]
    fn see(&mut self, alloc: Global, bytes: &[u8], asked: &mut Want) -> Result<Reply, NoMemory> {
        self.stage.see(alloc, bytes, asked)
    }

    #[inline(never)]
    fn put(&mut self, alloc: Global, o: u16, asked: &mut Want) -> Result<(), NoMemory> {
        self.stage.put(alloc, o, asked)
    }

    #[inline(always)]
    fn passes(&mut self) -> bool {
        self.stage.passes()
    }

    fn looks(&self) -> bool {
        self.stage.looks()
    }

    fn kept(&self) -> &[u8] {
        self.stage.kept()
    }

    fn shown(&self) -> &[u8] {
        &[]
    }

    fn text_ahead(&self) -> &[u8] {
        &[]
    }
}
