use pipe_model::{NoMemory, Seen, Want};
use stage_steps::Stage;
use std::alloc::Global;

/// `<` of a file that isn't there: it ends before its first commit.
#[derive(Drop)]
pub struct Absent {}

impl Stage for Absent {
    ghost use Rattle.std.specs.Prelude.{IfOk};
    ghost use Rattle.stage_steps.specs.Coroutine.{Resumes};
    ghost use Rattle.device_stages.specs.Absent.{AbsentStands};

    ghost stands = { AbsentStands };

    fn first(&self) -> Want {
        Want::Done(28)
    }

    // It may be told any event; it goes on to end.
    fn resume(&mut self, _alloc: Global, _seen: Seen, _bytes: &[u8]) -> Result<Want, NoMemory>
        ensures { IfOk result (λ asked. Resumes AbsentStands self.old self.new _seen _bytes.now asked) }
    {
        Ok(Want::Done(28))
    }

    fn looks(&self) -> bool {
        false
    }

    fn kept(&self) -> &[u8] {
        &[]
    }

    fn shown(&self) -> &[u8] {
        &[]
    }

    fn text_ahead(&self) -> &[u8] {
        &[]
    }
}
