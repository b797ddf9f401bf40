ghost use Rattle.std.specs.Prelude.{◌≡◌, ◌&&◌, [], true, None, IfOk, is_none, option_map, pos};
ghost use Rattle.std.specs.Ordering.{int_eq};
ghost use Rattle.stage_steps.specs.declared.place.Place.TheVariants.{Writing};
ghost use Rattle.stage_steps.specs.Outputs.{none_left};
ghost use Rattle.stage_steps.specs.Group.{less, less_one, IsHeld};
ghost use Rattle.stage_steps.specs.Places.{look_place, sight_place, taken_place};
ghost use Rattle.stage_steps.specs.Lists.{Sifts, Tells};
ghost use Rattle.stage_steps.specs.Walk.{IsBegun, Hears, CanPass, IsPassing, CanGoOn, IsGoingOn, Fetches, Puts, Asks, TellsBehind, LooksPlainly, WritesPlainly, IsReply, IsGivenBy, SiftsOn, Spends, TakesBefore};
ghost use Rattle.stage_steps.specs.Kept.{kept_after};
ghost use Rattle.stage_steps.specs.Awaits.{TakesPlainly};
ghost use Rattle.stage_steps.specs.declared.place.Place.TheVariants.{Looking};
ghost use Rattle.stage_steps.specs.declared.reply.Reply.TheVariants.{Takes};

use crate::group::{Group, Repeat};
use crate::kept::{Kept, note_taken};
use crate::lists::Lists;
use crate::order::Order;
use crate::outputs::Outputs;
use crate::place::{Follow, Place, want_at};
use crate::reply::{Reply, leave};
use crate::sifted::Sifted;
use pipe_model::{NoMemory, Out, Seen, Times, Want};
use std::alloc::Global;

/// A walk of the pairs that lists give.
#[derive(Drop)]
pub(crate) struct Walk {
    pub(crate) order: Order,
    pub(crate) place: Place,
    /// What is left of the record at hand, which comes before what the lists still give.
    pub(crate) hand: Option<Repeat>,
    pub(crate) outputs: Outputs,
    /// The text of the records taken, of a stage that keeps it. Refusals end the others.
    pub(crate) kept: Option<Kept>,
}

impl Walk {
    ghost use Rattle.std.specs.Prelude.{◌≡◌, ◌&&◌, is_none};
    ghost use Rattle.stage_steps.specs.Outputs.{none_left};

    // Whether it ends, as no output is left.
    fn gives_up(&self) -> bool
        ensures { result ≡ (is_none self.now.kept && none_left self.now.outputs.connected self.now.outputs.flags.items) }
    {
        self.kept.is_none() && self.outputs.none_left()
    }
}

// The place where it looks at the next record, or stops.
#[inline(always)]
fn look_place<L: Lists>(lists: &L) -> Place
    ensures { Tells L.stands lists.now result look_place }
{
    if lists.stops() {
        Place::Ending(lists.code())
    } else {
        Place::Looking
    }
}

// The place at the sight of a record.
#[inline(always)]
fn sight_place<L: Lists>(lists: &L, order: Order) -> Place
    ensures { Tells L.stands lists.now result (sight_place order) }
{
    if lists.halts() {
        return Place::Ending(lists.code());
    }
    match order {
        Order::WritesFirst => Place::Writing(Follow::Take),
        Order::TakesFirst => Place::Taking,
    }
}

// The place when the record was taken.
#[inline(always)]
fn taken_place<L: Lists>(lists: &L, order: Order) -> Place
    ensures { Tells L.stands lists.now result (taken_place order) }
{
    match order {
        Order::WritesFirst => look_place(lists),
        Order::TakesFirst => Place::Writing(Follow::Look),
    }
}

// The place when nothing is left to write.
#[inline(always)]
fn place_behind<L: Lists>(lists: &L, follow: Follow) -> Place
    ensures { TellsBehind L.stands lists.now follow result }
{
    match follow {
        Follow::Take => Place::Taking,
        Follow::Look => look_place(lists),
        Follow::End => Place::Ending(lists.code()),
    }
}

// The place behind commit level 0, with this code.
fn begin<L: Lists>(lists: &mut L, code: i32) -> Place
    ensures looks_same { L.is_looking lists.new ≡ L.is_looking lists.old }
    ensures begun { IsBegun L.stands lists.old lists.new result (int_eq code (pos 0)) }
{
    if code == 0 {
        lists.begin();
        Place::Writing(Follow::Look)
    } else {
        Place::Ending(0)
    }
}

// The place after an event. What isn't answered ends the walk.
#[inline(always)]
pub(crate) fn hear<L: Lists>(
    lists: &mut L,
    walk: &Walk,
    alloc: Global,
    seen: Seen,
    bytes: &[u8],
) -> Result<Place, NoMemory>
    ensures looks_same { L.is_looking lists.new ≡ L.is_looking lists.old }
    ensures hears { IfOk result (λ place. Hears L.stands (L.is_looking lists.old) walk.now.order (is_none walk.now.kept && none_left walk.now.outputs.connected walk.now.outputs.flags.items) lists.old walk.now.place seen bytes.now lists.new place) }
{
    match (walk.place, seen) {
        (Place::Writing(follow), Seen::Put(_)) => Ok(Place::Writing(follow)),
        (Place::Passing, Seen::Put(_)) => Ok(Place::Writing(Follow::Take)),
        (Place::Taking | Place::Passing, Seen::Took(_)) => Ok(taken_place(lists, walk.order)),
        (Place::Looking | Place::Passing, Seen::Saw(_)) => {
            lists.see(alloc, bytes)?;
            Ok(sight_place(lists, walk.order))
        }
        (Place::Looking | Place::Passing, Seen::SawEnd(_)) => {
            lists.end(alloc)?;
            Ok(Place::Writing(Follow::End))
        }
        (Place::Writing(follow), Seen::Refused(_)) => if walk.gives_up() {
            Ok(Place::Ending(0))
        } else {
            Ok(Place::Writing(follow))
        },
        (Place::Passing, Seen::Refused(_)) => if walk.gives_up() {
            Ok(Place::Ending(0))
        } else {
            Ok(Place::Writing(Follow::Take))
        },
        (Place::Starting, Seen::Up(_, code)) => if code == 0 {
            Ok(Place::Committing)
        } else {
            Ok(Place::Ending(0))
        },
        (Place::Committing, Seen::Up(_, code)) => Ok(begin(lists, code)),
        (Place::Ending(code), Seen::Ended(_)) => Ok(Place::Ending(code)),
        _ => Ok(Place::Ending(0)),
    }
}

// Whether what follows the record at hand is known: nothing is left to write, and it goes on to the next one.
#[inline(always)]
fn can_pass<L: Lists>(lists: &L, walk: &Walk) -> bool
    ensures { result ≡ true → CanPass L.stands lists.now walk.now }
{
    matches!(walk.place, Place::Writing(Follow::Take) | Place::Taking)
        && walk.kept.is_none()
        && walk.hand.is_none()
        && matches!(walk.order, Order::WritesFirst)
        && lists.is_spent()
}

// Whether it passes the record at hand on. It stands where it does then.
#[inline(always)]
pub(crate) fn passes<L: Lists>(lists: &L, walk: &mut Walk) -> bool
    ensures { IsPassing L.stands lists.now walk.old walk.new result }
{
    if !can_pass(lists, walk) {
        return false;
    }
    walk.place = Place::Passing;
    true
}

// Whether all that it does, once the record at hand was taken, is to look at the next one.
#[inline(always)]
fn can_go_on<L: Lists>(lists: &L, walk: &Walk) -> bool
    ensures { result ≡ true → CanGoOn L.stands lists.now walk.now }
{
    match walk.order {
        Order::WritesFirst => {
            matches!(walk.place, Place::Taking | Place::Passing) && !lists.stops()
        }
        Order::TakesFirst => {
            matches!(walk.place, Place::Taking) && walk.hand.is_none() && lists.is_spent()
        }
    }
}

// Whether it goes on to the next record, when the one at hand was taken. It stands there then, and what it keeps of that
// record is counted as taken.
#[inline(always)]
pub(crate) fn goes_on<L: Lists>(lists: &L, walk: &mut Walk) -> bool
    ensures { IsGoingOn L.stands lists.now walk.old walk.new result }
{
    if !can_go_on(lists, walk) {
        return false;
    }
    note_taken(&mut walk.kept);
    walk.place = Place::Looking;
    true
}

// The next group whose output is open.
#[inline(always)]
fn next_group<L: Lists>(
    lists: &mut L,
    outputs: &Outputs,
    alloc: Global,
) -> Result<Option<Group>, NoMemory>
    ensures looks_same { L.is_looking lists.new ≡ L.is_looking lists.old }
    ensures fetches { IfOk result (λ given. Fetches L.stands L.made outputs.now.flags.items lists.old None lists.new given) }
{
    while let Some(group) = lists.next(alloc)? {
        if outputs.takes(group) {
            return Ok(Some(group));
        }
    }
    Ok(None)
}

// The same, the record in hand first, which leaves it.
#[inline(always)]
fn fetch<L: Lists>(
    lists: &mut L,
    hand: &mut Option<Repeat>,
    outputs: &Outputs,
    alloc: Global,
) -> Result<Option<Group>, NoMemory>
    ensures looks_same { L.is_looking lists.new ≡ L.is_looking lists.old }
    ensures hand { IfOk result (λ _. hand.new ≡ None) }
    ensures fetches { IfOk result (λ given. Fetches L.stands L.made outputs.now.flags.items lists.old hand.old lists.new given) }
{
    // Most often nothing is in hand.
    if hand.is_none() {
        return next_group(lists, outputs, alloc);
    }
    match hand.take() {
        Some(repeat) => if outputs.takes(Group::AtHand(repeat)) {
            Ok(Some(Group::AtHand(repeat)))
        } else {
            next_group(lists, outputs, alloc)
        },
        None => next_group(lists, outputs, alloc),
    }
}

// One time less, if any is left.
#[inline(always)]
fn less(times: Times) -> Option<Times>
    ensures { result ≡ less times }
{
    match times {
        Times::Only(n) => if n == 1 {
            None
        } else {
            Some(Times::Only(n.saturating_sub(1)))
        },
        Times::All => Some(Times::All),
    }
}

// What is left when one is written.
#[inline(always)]
fn less_one(repeat: Repeat) -> Option<Repeat>
    ensures { result ≡ less_one repeat }
{
    match less(repeat.times) {
        Some(times) => Some(Repeat {
            output: repeat.output,
            times,
        }),
        None => None,
    }
}

// Asks to write one of the group. The others of a record at hand stay in hand.
#[inline(always)]
fn write<L: Lists>(
    lists: &mut L,
    hand: &mut Option<Repeat>,
    group: Group,
    alloc: Global,
) -> Result<Want, NoMemory>
    requires hand { hand.old ≡ None }
    requires held { IsHeld (L.made lists.old) group }
    ensures looks_same { L.is_looking lists.new ≡ L.is_looking lists.old }
    ensures puts { IfOk result (λ asked. Puts L.stands L.made lists.old group lists.new hand.new asked) }
{
    match group {
        Group::AtHand(repeat) => {
            if let Some(left) = less_one(repeat) {
                *hand = Some(left);
            }
            Ok(Want::Write(repeat.output, Out::Same(0)))
        }
        Group::New(output) => {
            let rec = lists.hand_over(alloc)?;
            Ok(Want::Write(output, Out::Fresh(rec)))
        }
    }
}

// What it asks for where it writes.
#[inline(always)]
fn ask_writing<L: Lists>(
    lists: &mut L,
    walk: &mut Walk,
    follow: Follow,
    alloc: Global,
) -> Result<Want, NoMemory>
    ensures looks_same { L.is_looking lists.new ≡ L.is_looking lists.old }
    ensures others { walk.new ≡ record walk.old { place = walk.new.place; hand = walk.new.hand } }
    ensures asks { IfOk result (λ asked. Asks L.stands L.made walk.old.outputs.flags.items lists.old walk.old.hand (Writing follow) lists.new walk.new.hand walk.new.place asked) }
{
    match fetch(lists, &mut walk.hand, &walk.outputs, alloc)? {
        Some(group) => {
            walk.place = Place::Writing(follow);
            write(lists, &mut walk.hand, group, alloc)
        }
        None => {
            walk.place = place_behind(lists, follow);
            Ok(want_at(walk.place))
        }
    }
}

// What it asks for in a place. It stands there then, or where that leads to.
#[inline(always)]
pub(crate) fn ask<L: Lists>(
    lists: &mut L,
    walk: &mut Walk,
    place: Place,
    alloc: Global,
) -> Result<Want, NoMemory>
    ensures looks_same { L.is_looking lists.new ≡ L.is_looking lists.old }
    ensures others { walk.new ≡ record walk.old { place = walk.new.place; hand = walk.new.hand } }
    ensures asks { IfOk result (λ asked. Asks L.stands L.made walk.old.outputs.flags.items lists.old walk.old.hand place lists.new walk.new.hand walk.new.place asked) }
{
    match place {
        Place::Writing(follow) => ask_writing(lists, walk, follow, alloc),
        _ => {
            walk.place = place;
            Ok(want_at(place))
        }
    }
}

// Whether it writes pairs, the next on output 0 if there is one, and keeps no text.
#[inline(always)]
pub(crate) fn writes_plainly(walk: &Walk) -> bool
    ensures { result ≡ true → WritesPlainly walk.now }
{
    matches!(walk.place, Place::Writing(_))
        && walk.hand.is_none()
        && walk.kept.is_none()
        && walk.outputs.is_open(0)
}

// Whether it looks at the next record, and has nothing in hand.
#[inline(always)]
pub(crate) fn looks_plainly(walk: &Walk) -> bool
    ensures { result ≡ true → LooksPlainly walk.now }
{
    matches!(walk.place, Place::Looking | Place::Passing) && walk.hand.is_none()
}

// Whether it takes a record as it sees it that is for this output, and is then as before.
#[inline(always)]
pub(crate) fn takes_plainly(walk: &Walk, output: u16) -> bool
    ensures { result ≡ true → TakesPlainly walk.now output }
{
    matches!(walk.place, Place::Looking)
        && looks_plainly(walk)
        && matches!(walk.order, Order::WritesFirst)
        && walk.kept.is_none()
        && !walk.outputs.is_open(output)
}

// The answer to the sight of a record, after which it wants this.
#[inline(always)]
pub(crate) fn reply<L: Lists>(lists: &L, walk: &mut Walk, want: Want, asked: &mut Want) -> Reply
    ensures { IsReply L.stands lists.now walk.old want walk.new asked.new result }
{
    if matches!(want, Want::Take(0)) && goes_on(lists, walk) {
        return Reply::Takes;
    }
    leave(asked, want);
    if passes(lists, walk) {
        Reply::Passes
    } else {
        Reply::Asks
    }
}

// The record at hand is taken at once, as nothing is left to write.
#[inline(always)]
fn take_on(walk: &mut Walk) -> Reply
    ensures takes { result ≡ Takes }
    ensures walk { walk.new ≡ record walk.old { place = Looking; kept = option_map (kept_after (Seen.Took 0) []) walk.old.kept } }
{
    note_taken(&mut walk.kept);
    walk.place = Place::Looking;
    Reply::Takes
}

// Whether it takes the record at hand before it writes the pairs of that, and looks at the next one behind them.
#[inline(always)]
fn takes_before<L: Lists>(lists: &L, order: Order) -> bool
    ensures { result ≡ true → TakesBefore L.stands lists.now order }
{
    matches!(order, Order::TakesFirst) && !lists.halts() && !lists.stops()
}

// Leaves out all that is left to write, where it is for one output and that isn't open.
#[inline(always)]
fn spend<L: Lists>(lists: &mut L, outputs: &Outputs, alloc: Global) -> Result<bool, NoMemory>
    ensures looks_same { L.is_looking lists.new ≡ L.is_looking lists.old }
    ensures spends { IfOk result (λ spent. Spends L.stands outputs.now.flags.items lists.old lists.new spent) }
{
    match lists.only_output() {
        Some(output) => if outputs.is_open(output) {
            Ok(false)
        } else {
            next_group(lists, outputs, alloc)?;
            Ok(true)
        },
        None => Ok(false),
    }
}

// The lists see a record, and may say at once what they give for it, where that is written before the record is taken.
#[inline(always)]
fn sift_by<L: Lists>(
    lists: &mut L,
    order: Order,
    alloc: Global,
    bytes: &[u8],
) -> Result<Sifted, NoMemory>
    ensures looks_same { L.is_looking lists.new ≡ L.is_looking lists.old }
    ensures sifts { IfOk result (λ sifted. Sifts L.stands L.made (L.is_looking lists.old) lists.old lists.new bytes.now sifted) }
    ensures given { IfOk result (λ sifted. IsGivenBy order sifted) }
{
    match order {
        Order::WritesFirst => lists.sift(alloc, bytes),
        Order::TakesFirst => {
            lists.see(alloc, bytes)?;
            Ok(Sifted::Gives)
        }
    }
}

// It sees a record, where it looks plainly at it, and what it keeps of that is kept.
#[inline(always)]
pub(crate) fn sift<L: Lists>(
    lists: &mut L,
    walk: &mut Walk,
    alloc: Global,
    bytes: &[u8],
    asked: &mut Want,
) -> Result<Reply, NoMemory>
    requires plain { LooksPlainly walk.old }
    ensures looks_same { L.is_looking lists.new ≡ L.is_looking lists.old }
    ensures sifts { IfOk result (λ reply. SiftsOn L.stands L.made L.is_looking lists.old walk.old bytes.now lists.new walk.new asked.new reply) }
{
    match sift_by(lists, walk.order, alloc, bytes)? {
        Sifted::Drops => Ok(take_on(walk)),
        Sifted::Passes(output) => if !walk.outputs.is_open(output) {
            Ok(take_on(walk))
        } else {
            leave(asked, Want::Write(output, Out::Same(0)));
            if walk.kept.is_none() {
                walk.place = Place::Passing;
                Ok(Reply::Passes)
            } else {
                walk.place = Place::Writing(Follow::Take);
                Ok(Reply::Asks)
            }
        },
        Sifted::Gives => {
            if takes_before(lists, walk.order) {
                if spend(lists, &walk.outputs, alloc)? {
                    return Ok(take_on(walk));
                }
            }
            let place = sight_place(lists, walk.order);
            let want = ask(lists, walk, place, alloc)?;
            Ok(reply(lists, walk, want, asked))
        }
    }
}
