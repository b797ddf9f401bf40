ghost use Rattle.std.specs.Prelude.{◌≡◌, Bool, true, false, ◌<◌, ◌||◌, ◌∷◌, ◌++◌, [], Some, None, length, slice_get, slice_set, vec_capacity, IfOk};
ghost use Rattle.pipe_model.specs.declared.step.Seen.TheVariants as Told;
ghost use Rattle.pipe_model.specs.declared.step.Want.{Want as Asked};
ghost use Rattle.stage_steps.specs.Coroutine.{CanResume, Resumes};
ghost use Rattle.stage_steps.specs.PassesOn.{PassesOn};
ghost use Rattle.stage_steps.specs.Replies.{CanSee};
ghost use Rattle.core_machine.specs.Actors.{is_end, gone_out, come_back, gone_on, given_up, asking_for, looks_in, DoesPass, HasSeen};
ghost use Rattle.core_machine.specs.declared.actor.Actor.{Actor as ActorIs};

use pipe_model::{NoMemory, Seen, Want};
use stage_steps::{Reply, Stage, leave};
use std::alloc::Global;
use std::mem;

/// What a core keeps of a strand, besides the desk.
#[derive(Drop)]
pub struct Actor<S: Stage> {
    /// Its coroutine, unless that is out with a job.
    pub stage: Option<S>,
    /// What it asked for last. A new record that it writes is in the pool, and empty here.
    pub asked: Want,
    /// Whether it is given the bytes of the records that it sees, as its coroutine said at the start.
    pub looks: bool,
    /// Whether it has seen the end of input 0.
    pub saw_end: bool,
    /// Whether its coroutine passes on the record that it saw last, and needn't be told that its record was put and the one
    /// at hand taken.
    pub passes: bool,
}

/// The strand's coroutine goes out, and is told this.
#[inline(always)]
pub(crate) fn send_out<S: Stage>(actors: &mut Vec<Actor<S>>, strand: usize, seen: Seen) -> S
    requires { (a : ActorIs S) × (x : S) × (slice_get actors.old.items strand ≡ Some a) × (a.stage ≡ Some x) }
    ensures { (a : ActorIs S) × (slice_get actors.old.items strand ≡ Some a) × (a.stage ≡ Some result) × (actors.new.items ≡ slice_set actors.old.items strand (gone_out seen a)) }
{
    let actor = &mut actors[strand];
    note_end(actor, seen);
    let Some(stage) = mem::replace(&mut actor.stage, None) else {
        unreachable!()
    };
    stage
}

/// The strand's coroutine comes back, asks for this, and may pass on the record that it saw last.
#[inline(always)]
pub(crate) fn take_back<S: Stage>(actor: &mut Actor<S>, stage: S, asked: Want, passes: bool)
    ensures { actor.new ≡ come_back stage asked passes actor.old }
{
    actor.stage = Some(stage);
    actor.passes = passes;
    ask(actor, asked);
}

/// The strand's coroutine, which came back, is given up, as there was no memory: the strand stays out.
#[cold]
pub(crate) fn stay_out<S: Stage>(actor: &mut Actor<S>)
    ensures { actor.new ≡ given_up actor.old }
{
    actor.stage = None;
}

/// The strand is told this, and goes on in place. Its coroutine is told it, but where that passes a record on and this is
/// put or taken. What it asks for is kept.
#[inline(always)]
pub(crate) fn advance<S: Stage>(
    actor: &mut Actor<S>,
    alloc: Global,
    seen: Seen,
    bytes: &[u8],
) -> Result<(), NoMemory>
    requires can { (x : S) × (actor.old.stage ≡ Some x) × CanResume S.stands x seen bytes.now }
    requires passes { DoesPass S.stands actor.old }
    ensures { (x : S) × (y : S) × (asked : Asked) × (passes : Bool) × (actor.old.stage ≡ Some x) × (actor.new ≡ gone_on seen y asked passes actor.old) × IfOk result (λ done. Resumes S.stands x y seen bytes.now asked × (passes ≡ true → PassesOn S.stands y)) }
{
    match seen {
        Seen::Put(_) if actor.passes => ask(actor, Want::Take(0)),
        Seen::Took(_) if actor.passes => ask(actor, Want::Read(0)),
        _ => return resume(actor, alloc, seen, bytes),
    }
    Ok(())
}

/// The strand is told that it sees a record on an input, and goes on in place. Where the answer is `Takes` it took the record,
/// too.
#[inline(always)]
pub(crate) fn see<S: Stage>(
    actor: &mut Actor<S>,
    alloc: Global,
    i: u16,
    bytes: &[u8],
) -> Result<Reply, NoMemory>
    requires { (x : S) × (actor.old.stage ≡ Some x) × CanSee S.stands x i bytes.now }
    ensures { (x : S) × (y : S) × (asked : Asked) × (passes : Bool) × (actor.old.stage ≡ Some x) × (actor.new ≡ gone_on (Told.Saw i) y asked passes actor.old) × IfOk result (HasSeen S.stands x y i bytes.now asked passes) }
{
    if i != 0 {
        return see_on(actor, alloc, i, bytes);
    }
    let Some(stage) = &mut actor.stage else {
        unreachable!()
    };
    let reply = stage.see(alloc, bytes, &mut actor.asked)?;
    actor.passes = matches!(reply, Reply::Passes);
    // Most often it asked for that before, and nothing was left there.
    if matches!(reply, Reply::Takes) && !matches!(actor.asked, Want::Read(0)) {
        ask(actor, Want::Read(0));
    }
    Ok(reply)
}

// The strand is told that it sees a record on another input than 0, and goes on in place.
#[inline(never)]
fn see_on<S: Stage>(
    actor: &mut Actor<S>,
    alloc: Global,
    i: u16,
    bytes: &[u8],
) -> Result<Reply, NoMemory>
    requires { (x : S) × (actor.old.stage ≡ Some x) × CanResume S.stands x (Told.Saw i) bytes.now }
    ensures { (x : S) × (y : S) × (asked : Asked) × (passes : Bool) × (actor.old.stage ≡ Some x) × (actor.new ≡ gone_on (Told.Saw i) y asked passes actor.old) × IfOk result (HasSeen S.stands x y i bytes.now asked passes) }
{
    resume(actor, alloc, Seen::Saw(i), bytes)?;
    if actor.passes {
        Ok(Reply::Passes)
    } else {
        Ok(Reply::Asks)
    }
}

/// The strand is told that it put a record on an output, and goes on in place. Its coroutine is told it, but where that
/// passes a record on. What it asks for is kept.
#[inline(always)]
pub(crate) fn put<S: Stage>(actor: &mut Actor<S>, alloc: Global, o: u16) -> Result<(), NoMemory>
    requires can { (x : S) × (actor.old.stage ≡ Some x) × CanResume S.stands x (Told.Put o) [] }
    requires passes { DoesPass S.stands actor.old }
    ensures { (x : S) × (y : S) × (asked : Asked) × (passes : Bool) × (actor.old.stage ≡ Some x) × (actor.new ≡ gone_on (Told.Put o) y asked passes actor.old) × IfOk result (λ done. Resumes S.stands x y (Told.Put o) [] asked × (passes ≡ true → PassesOn S.stands y)) }
{
    if actor.passes {
        ask(actor, Want::Take(0));
        return Ok(());
    }
    let Some(stage) = &mut actor.stage else {
        unreachable!()
    };
    stage.put(alloc, o, &mut actor.asked)
}

/// The strand's coroutine is told this, and goes on.
#[inline(always)]
pub(crate) fn resume<S: Stage>(
    actor: &mut Actor<S>,
    alloc: Global,
    seen: Seen,
    bytes: &[u8],
) -> Result<(), NoMemory>
    requires { (x : S) × (actor.old.stage ≡ Some x) × CanResume S.stands x seen bytes.now }
    ensures { (x : S) × (y : S) × (asked : Asked) × (passes : Bool) × (actor.old.stage ≡ Some x) × (actor.new ≡ gone_on seen y asked passes actor.old) × IfOk result (λ done. Resumes S.stands x y seen bytes.now asked × (passes ≡ true → PassesOn S.stands y)) }
{
    note_end(actor, seen);
    let Some(stage) = &mut actor.stage else {
        unreachable!()
    };
    let asked = stage.resume(alloc, seen, bytes)?;
    actor.passes = matches!(seen, Seen::Saw(_)) && stage.passes();
    ask(actor, asked);
    Ok(())
}

/// It asks for this.
#[inline(always)]
pub(crate) fn ask<S: Stage>(actor: &mut Actor<S>, asked: Want)
    ensures { actor.new ≡ asking_for asked actor.old }
{
    leave(&mut actor.asked, asked);
}

// Keeps whether the strand has seen the end of input 0.
fn note_end<S: Stage>(actor: &mut Actor<S>, seen: Seen)
    ensures { actor.new ≡ record actor.old { saw_end = actor.old.saw_end || is_end seen } }
{
    if matches!(seen, Seen::SawEnd(0)) {
        actor.saw_end = true;
    }
}

/// The strand's coroutine is given up after want of memory: the strand is out for good, with the entry of this place.
#[cold]
pub(crate) fn give_up<S: Stage>(actor: &mut Actor<S>, out: &mut Vec<u64>, place: u64)
    requires { length out.old.items < vec_capacity out.old }
    ensures actor { actor.new ≡ given_up actor.old }
    ensures out { out.new.items ≡ out.old.items ++ place ∷ [] }
    ensures capacity { vec_capacity out.new ≡ vec_capacity out.old }
{
    actor.stage = None;
    out.push_reserved(place);
}

/// Whether the strand is given the bytes of what it sees.
pub(crate) fn looks<S: Stage>(actors: &[Actor<S>], strand: u32) -> bool
    ensures { result ≡ looks_in actors.now strand }
{
    match actors.get(strand as usize) {
        None => false,
        Some(actor) => actor.looks,
    }
}
