ghost use Rattle.std.specs.Prelude.{◌≡◌, ◌<◌, ℕ, Bool, IfOk, IfSome};
ghost use Rattle.pipe_model.specs.Event.Event.{SawEnd, SawAllEnd, Primed};
ghost use Rattle.pipe_model.specs.Row.{Plan, Known};
ghost use Rattle.stage_steps.specs.Plans as Spec;

use pipe_model::{NoMemory, Out};
use std::alloc::Global;

/// One act of a plan.
#[derive(Drop)]
pub enum Act {
    /// It writes on an output.
    Write(u16, Out),
    /// It consumes the record seen on an input.
    Take(u16),
}

/// What follows when all of a plan is done.
#[derive(Clone, Copy)]
pub enum Goal {
    /// It looks at the record at hand on an input.
    Read(u16),
    /// It looks at any input.
    Any,
    /// GATE's look.
    Gate,
    /// It waits until its stage's first strand saw a record or ended.
    Prime,
    /// It ends with this code.
    End(i32),
}

/// What a stage does that plans: a value that knows what its strand was told, and gives the acts of the plan that it made
/// last, one by one. A fresh value has made the plan of a strand that was told nothing. A new plan is made only when the
/// last one was done.
pub trait Plans: Sized + Drop {
    /// The value stands for the plans of a row, what the strand knows when what was given is done, and what is left of the
    /// plan that it made last.
    ghost stands: { Self → (Known → Plan) → Known → Plan → Type 0 };

    /// It needs the bytes of the records.
    ghost is_looking: { Self → Bool };

    /// How many acts are left at most.
    ghost left: { Self → ℕ };

    /// Plans by a record that is in sight on an input. `bytes` is the record where they are needed, else empty.
    fn see(&mut self, alloc: Global, input: u16, bytes: &[u8]) -> Result<(), NoMemory>
        ensures looks_same { is_looking self.new ≡ is_looking self.old }
        ensures plans { IfOk result (λ _. Spec.PlansBySight stands (is_looking self.old) self.old self.new input bytes.now) };

    /// Plans by the end of an input.
    fn end(&mut self, alloc: Global, input: u16) -> Result<(), NoMemory>
        ensures looks_same { is_looking self.new ≡ is_looking self.old }
        ensures plans { IfOk result (λ _. Spec.Plans stands self.old self.new (SawEnd input)) };

    /// Plans by the end of all inputs.
    fn end_all(&mut self)
        ensures looks_same { is_looking self.new ≡ is_looking self.old }
        ensures plans { Spec.Plans stands self.old self.new SawAllEnd };

    /// Plans by what it waited for: that its stage's first strand saw a record, or ended without one.
    fn prime(&mut self, primed: bool)
        ensures looks_same { is_looking self.new ≡ is_looking self.old }
        ensures plans { Spec.Plans stands self.old self.new (Primed primed) };

    /// The next act, or None where nothing is left to do.
    fn next(&mut self, alloc: Global) -> Result<Option<Act>, NoMemory>
        ensures looks_same { is_looking self.new ≡ is_looking self.old }
        ensures falls { IfOk result (λ given. IfSome given (λ _. left self.new < left self.old)) }
        ensures gives { IfOk result (λ given. Spec.GivesAct stands self.old self.new given) };

    /// What follows, where nothing is left to do.
    fn goal(&self) -> Goal
        ensures { Spec.TellsGoal stands self.now result };

    /// Whether it needs the bytes of the records.
    fn looks(&self) -> bool
        ensures { result ≡ is_looking self.now };
}
