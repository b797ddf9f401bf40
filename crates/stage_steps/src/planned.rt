ghost use Rattle.std.specs.Prelude.{◌≡◌, IfOk};
ghost use Rattle.stage_steps.specs.Outputs.{none_left};
ghost use Rattle.stage_steps.specs.Planning.{place_behind, asked_behind, HearsPlan, FetchesAct, AsksPlan};

use crate::outputs::Outputs;
use crate::plans::{Act, Goal, Plans};
use crate::stage::Stage;
use pipe_model::{NoMemory, Seen, Want};
use std::alloc::Global;

/// Where a driver of plans stands.
#[derive(Clone, Copy)]
pub(crate) enum At {
    /// It is to reach commit level -1.
    Starting,
    /// It is to reach commit level 0.
    Committing,
    /// It does an act of a plan.
    Doing,
    /// It asked for what follows a plan.
    Asking,
    /// It ends with this code.
    Ending(i32),
}

/// The driver of the stages that plan: of those that read several inputs, and of all whose acts aren't the lists of one
/// input.
#[derive(Drop)]
pub struct Planned<P: Plans> {
    plans: P,
    place: At,
    outputs: Outputs,
}

impl<P: Plans> Planned<P> {
    ghost use Rattle.std.specs.Prelude.{IfOk};
    ghost use Rattle.stage_steps.specs.Planned.{IsFreshPlan};

    /// A fresh driver of these plans, with these connected outputs.
    pub fn new(alloc: Global, plans: P, outputs: &[bool]) -> Result<Planned<P>, NoMemory>
        ensures { IfOk result (λ it. IsFreshPlan P.stands P.is_looking plans outputs.now it) }
    {
        Ok(Planned {
            plans,
            place: At::Starting,
            outputs: Outputs::new(alloc, outputs)?,
        })
    }
}

// The place behind an event. What isn't answered ends it.
#[inline(always)]
fn hear<P: Plans>(
    plans: &mut P,
    place: At,
    outputs: &Outputs,
    alloc: Global,
    seen: Seen,
    bytes: &[u8],
) -> Result<At, NoMemory>
    ensures looks_same { P.is_looking plans.new ≡ P.is_looking plans.old }
    ensures hears { IfOk result (λ behind. HearsPlan P.stands (P.is_looking plans.old) (none_left outputs.now.connected outputs.now.flags.items) plans.old place seen bytes.now plans.new behind) }
{
    match (place, seen) {
        (At::Doing, Seen::Put(_) | Seen::Took(_)) => Ok(At::Doing),
        (At::Asking, Seen::Saw(input)) => {
            plans.see(alloc, input, bytes)?;
            Ok(At::Doing)
        }
        (At::Asking, Seen::SawEnd(input)) => {
            plans.end(alloc, input)?;
            Ok(At::Doing)
        }
        (At::Asking, Seen::SawAllEnd) => {
            plans.end_all();
            Ok(At::Doing)
        }
        (At::Asking, Seen::Primed(primed)) => {
            plans.prime(primed);
            Ok(At::Doing)
        }
        (At::Doing, Seen::Refused(_)) => if outputs.none_left() {
            Ok(At::Ending(0))
        } else {
            Ok(At::Doing)
        },
        (At::Starting, Seen::Up(_, code)) => if code == 0 {
            Ok(At::Committing)
        } else {
            Ok(At::Ending(0))
        },
        (At::Committing, Seen::Up(_, code)) => if code == 0 {
            Ok(At::Doing)
        } else {
            Ok(At::Ending(0))
        },
        (At::Ending(code), Seen::Ended(_)) => Ok(At::Ending(code)),
        _ => Ok(At::Ending(0)),
    }
}

// The next act that can be done: it takes a record, or its output is open.
#[inline(always)]
fn next_act<P: Plans>(
    plans: &mut P,
    outputs: &Outputs,
    alloc: Global,
) -> Result<Option<Act>, NoMemory>
    ensures looks_same { P.is_looking plans.new ≡ P.is_looking plans.old }
    ensures fetches { IfOk result (λ given. FetchesAct P.stands outputs.now.flags.items plans.old plans.new given) }
{
    while let Some(act) = plans.next(alloc)? {
        if outputs.lets(&act) {
            return Ok(Some(act));
        }
    }
    Ok(None)
}

// What it asks for behind a plan, and the place there.
#[inline(always)]
fn follow(goal: Goal) -> (At, Want)
    ensures place { result.0 ≡ place_behind goal }
    ensures asked { result.1 ≡ asked_behind goal }
{
    match goal {
        Goal::Read(input) => (At::Asking, Want::Read(input)),
        Goal::Any => (At::Asking, Want::Any),
        Goal::Gate => (At::Asking, Want::Gate),
        Goal::Prime => (At::Asking, Want::Primed),
        Goal::End(code) => (At::Ending(code), Want::Done(code)),
    }
}

// What it asks for in a place, and the place then.
#[inline(always)]
fn ask<P: Plans>(
    plans: &mut P,
    place: At,
    outputs: &Outputs,
    alloc: Global,
) -> Result<(At, Want), NoMemory>
    ensures looks_same { P.is_looking plans.new ≡ P.is_looking plans.old }
    ensures asks { IfOk result (λ told. AsksPlan P.stands outputs.now.flags.items plans.old place plans.new told.0 told.1) }
{
    match place {
        At::Doing => match next_act(plans, outputs, alloc)? {
            Some(Act::Write(output, out)) => Ok((At::Doing, Want::Write(output, out))),
            Some(Act::Take(input)) => Ok((At::Doing, Want::Take(input))),
            None => Ok(follow(plans.goal())),
        },
        At::Committing => Ok((place, Want::Commit(0))),
        At::Ending(code) => Ok((place, Want::Done(code))),
        At::Starting | At::Asking => Ok((At::Ending(0), Want::Done(0))),
    }
}

impl<P: Plans> Stage for Planned<P> {
    ghost use Rattle.std.specs.Prelude.{IfOk};
    ghost use Rattle.stage_steps.specs.Coroutine.{Resumes};
    ghost use Rattle.stage_steps.specs.Planned.{PlannedStands};

    ghost stands = { λ x s h. PlannedStands P.stands P.is_looking x s h };

    fn first(&self) -> Want {
        Want::Commit(-1)
    }

    // It may be told any event; what isn't answered ends it.
    #[inline(always)]
    fn resume(&mut self, alloc: Global, seen: Seen, bytes: &[u8]) -> Result<Want, NoMemory>
        ensures { IfOk result (λ asked. Resumes (λ x s h. PlannedStands P.stands P.is_looking x s h) self.old self.new seen bytes.now asked) }
    {
        self.outputs.note(seen);
        let place = hear(
            &mut self.plans,
            self.place,
            &self.outputs,
            alloc,
            seen,
            bytes,
        )?;
        let (place, asked) = ask(&mut self.plans, place, &self.outputs, alloc)?;
        self.place = place;
        Ok(asked)
    }

    fn looks(&self) -> bool {
        self.plans.looks()
    }

    fn kept(&self) -> &[u8] {
        &[]
    }

    fn shown(&self) -> &[u8] {
        &[]
    }

    fn text_ahead(&self) -> &[u8] {
        &[]
    }
}
