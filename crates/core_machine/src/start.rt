//! The core before the first step.
ghost use Rattle.std.specs.Prelude.{◌≡◌, ◌<◌, ◌≤◌, ◌+◌, [], Some, length, slice_get, slice_set, IfOk, OnErr};
ghost use Rattle.pipe_model.specs.declared.net.Strand.{Strand as StrandIs};
ghost use Rattle.pipe_model.specs.Next.{next};
ghost use Rattle.pipe_model.specs.WellFormed.{IsWellFormed};
ghost use Rattle.run_desk.specs.Holding.{IsPooled};
ghost use Rattle.stage_steps.specs.Coroutine.{meaning, last_seen};
ghost use Rattle.core_machine.specs.declared.actor.Actor.{Actor as ActorIs};
ghost use Rattle.core_machine.specs.Actors.{asking_for};
ghost use Rattle.core_machine.specs.Start.{IsNew, AreNew, IsCalled};

use crate::actor::Actor;
use crate::core_state::Core;
use crate::floor::Floor;
use pipe_model::{Net, NoMemory, Want};
use stage_steps::Stage;
use std::alloc::Global;
use step_journal::StepJournal;

impl<S: Stage> Core<S> {
    ghost use Rattle.std.specs.Prelude.{◌≡◌, ◌≤◌, IfOk};
    ghost use Rattle.pipe_model.specs.WellFormed.{IsWellFormed};
    ghost use Rattle.core_machine.specs.Machine.{started};
    ghost use Rattle.core_machine.specs.Start.{AreFresh};

    /// A core before the first step: each strand asks for what its fresh coroutine asks for first. The journal is
    /// reserved to the budget, which is at most fifty million entries.
    pub fn start(alloc: Global, net: Net, stages: Vec<S>, budget: u64) -> Result<Core<S>, NoMemory>
        requires formed { IsWellFormed net }
        requires fresh { AreFresh S.stands net.strands stages.items }
        requires bounded { budget ≤ 50000000 }
        ensures { IfOk result (λ core. core ≡ started net budget) }
    {
        let strands = net.strands.as_slice().len();
        let journal = StepJournal::with_room(alloc, budget as usize)?;
        let out = Vec::with_capacity(alloc, strands)?;
        let mut actors = new_actors(alloc, stages)?;
        let mut floor = Floor::new(alloc, net)?;
        let called = call_all(&mut floor, &mut actors);
        if called.is_err() {
            floor.close();
            return Err(NoMemory);
        }
        Ok(Core {
            floor,
            budget,
            actors,
            out,
            journal,
            is_broken: false,
        })
    }
}

// The actors of fresh coroutines, which have asked for nothing yet.
fn new_actors<S: Stage>(alloc: Global, stages: Vec<S>) -> Result<Vec<Actor<S>>, NoMemory>
    ensures { IfOk result (λ actors. AreNew S.stands stages.items actors.items) }
{
    let mut actors = Vec::with_capacity(alloc, stages.len())?;
    for stage in stages {
        actors.push(new_actor(stage))?;
    }
    Ok(actors)
}

fn new_actor<S: Stage>(stage: S) -> Actor<S>
    ensures { IsNew S.stands stage result }
{
    let looks = stage.looks();
    Actor {
        stage: Some(stage),
        asked: Want::Any,
        looks,
        saw_end: false,
        passes: false,
    }
}

// Each strand comes home with its first want.
fn call_all<S: Stage>(floor: &mut Floor, actors: &mut Vec<Actor<S>>) -> Result<(), NoMemory>
    requires formed { IsWellFormed floor.old.net }
    requires called { IsCalled S.stands floor.old.net 0 actors.old.items floor.old.desk floor.old.pool }
    ensures net { floor.new.net ≡ floor.old.net }
    ensures called { IfOk result (λ done. IsCalled S.stands floor.old.net (length floor.old.net.strands) actors.new.items floor.new.desk floor.new.pool) }
    ensures pooled { OnErr result (IsPooled floor.new.desk.wires floor.new.desk.sights floor.new.pool) }
{
    let count = actors.len() as u32;
    let mut strand = 0;
    while strand < count {
        call(floor, actors, strand)?;
        strand += 1;
    }
    Ok(())
}

// A strand comes home with its first want.
fn call<S: Stage>(
    floor: &mut Floor,
    actors: &mut Vec<Actor<S>>,
    strand: u32,
) -> Result<(), NoMemory>
    requires formed { IsWellFormed floor.old.net }
    requires within { strand < length floor.old.net.strands }
    requires called { IsCalled S.stands floor.old.net strand actors.old.items floor.old.desk floor.old.pool }
    ensures net { floor.new.net ≡ floor.old.net }
    ensures called { IfOk result (λ done. IsCalled S.stands floor.old.net (strand + 1) actors.new.items floor.new.desk floor.new.pool) }
    ensures pooled { OnErr result (IsPooled floor.new.desk.wires floor.new.desk.sights floor.new.pool) }
{
    let mut want = first_want(actors, strand as usize);
    floor.wake(strand);
    floor.come_home(strand, false, &mut want)?;
    set_asked(actors, strand as usize, want);
    Ok(())
}

// The first want of the fresh coroutine that is there.
fn first_want<S: Stage>(actors: &[Actor<S>], strand: usize) -> Want
    requires { (a : ActorIs S) × (x : S) × (slice_get actors.now strand ≡ Some a) × (a.stage ≡ Some x) }
    ensures { (a : ActorIs S) → (x : S) → slice_get actors.now strand ≡ Some a → a.stage ≡ Some x →
        (s : StrandIs) → S.stands x s [] → Some (meaning result (last_seen [])) ≡ next s [] }
{
    match &actors[strand].stage {
        None => unreachable!(),
        Some(stage) => stage.first(),
    }
}

fn set_asked<S: Stage>(actors: &mut Vec<Actor<S>>, strand: usize, asked: Want)
    requires { strand < length actors.old.items }
    ensures { (a : ActorIs S) × (slice_get actors.old.items strand ≡ Some a) × (actors.new.items ≡ slice_set actors.old.items strand (asking_for asked a)) }
{
    actors[strand].asked = asked;
}
