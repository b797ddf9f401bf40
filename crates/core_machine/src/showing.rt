//! Two strands of which the second takes the records that the first one writes, each as it is shown: they don't go through the pool
//! one by one.
ghost use Rattle.std.specs.Prelude.{◌≡◌, ◌<◌, ◌≤◌, ◌+◌, ◌*◌, ◌++◌, ◌∷◌, ℕ, true, false, List, [], Some, length, slice_get, slice_set, vec_capacity, IfOk, IfSome, OnErr};
ghost use Rattle.pipe_model.specs.declared.step.Entry.{Entry as EntryIs};
ghost use Rattle.pipe_model.specs.declared.step.Out.TheVariants as Outs;
ghost use Rattle.pipe_model.specs.declared.step.Want.{Want as Asked};
ghost use Rattle.pipe_model.specs.declared.step.Want.TheVariants as Asks;
ghost use Rattle.connectors.specs.WireState.{IsHeldIn};
ghost use Rattle.run_desk.specs.Relaying.{desk_showing, pool_refilled};
ghost use Rattle.run_desk.specs.Telling as Telling;
ghost use Rattle.run_desk.specs.Turns.{bare, offer_on};
ghost use Rattle.core_machine.specs.declared.actor.Actor.{Actor as ActorIs};
ghost use Rattle.core_machine.specs.declared.showing.Relayed.TheVariants as Next;
ghost use Rattle.core_machine.specs.Actors.{IsClearFor, asking_for, given_up};
ghost use Rattle.core_machine.specs.Machine.{Machine};
ghost use Rattle.core_machine.specs.Members.{is_member};
ghost use Rattle.core_machine.specs.Pairs.{IsPair, IsDue, IsWriter, AreOn, CanShow, EndsAt, Follows, MayCome, with_stage, without_stage};
ghost use Rattle.core_machine.specs.Runs.{HasRelayed};
ghost use Rattle.core_machine.specs.Sound.{IsSound};
ghost use Rattle.core_machine.specs.Woken.{HasReturned};

use crate::actor::{Actor, give_up, see};
use crate::floor::Floor;
use crate::fused::MOST_SHOWN;
use outside::Gate;
use pipe_model::{Entry, NoMemory, Out, Rec, Want};
use stage_steps::{Reply, Stage};
use std::alloc::Global;
use std::mem;
use step_journal::StepJournal;

// The reader's string is looked for so far ahead at once.
const FAR: usize = 4_096;

/// Two strands that follow each other: one that writes, on this output, and the other, which reads there on its input 0; and
/// the number of the link between them.
#[derive(Clone, Copy)]
pub(crate) struct Pair {
    pub(crate) strand: u32,
    pub(crate) output: u16,
    pub(crate) to: u32,
    pub(crate) link: u32,
}

/// The two strands, where the one whose record is due to be put, and to which no link leads, may show the next one to the other.
#[inline(always)]
pub(crate) fn pair_of<S: Stage>(
    floor: &Floor,
    actors: &[Actor<S>],
    strand: u32,
    output: u16,
) -> Option<Pair>
    requires sound { (budget : ℕ) × (journal : List EntryIs) × (out : List ℕ) × IsSound S.stands floor.now.net budget journal out actors.now floor.now.desk floor.now.pool }
    requires strand { strand < length floor.now.net.strands }
    ensures whose { IfSome result (λ p. (p.strand ≡ strand) × (p.output ≡ output)) }
    ensures pair { IfSome result (λ p. (grip : ℕ) × IsPair floor.now.net floor.now.desk floor.now.pool p grip) }
    ensures writer { IfSome result (IsWriter actors.now) }
{
    let actor = &actors[strand as usize];
    if actor.passes || !writes_new(&actor.asked, output) {
        return None;
    }
    let link = floor.rendezvous_at(strand, output)?;
    let to = floor.net().links.as_slice()[link as usize].to;
    if to <= strand || to - strand != 1 || to as usize >= actors.len() {
        return None;
    }
    // Others needn't wait for work that is long.
    if floor.has_long_sights(to) {
        return None;
    }
    match floor.link_in(to, 0) {
        Some(from) if from == link && floor.relays(to, link) => Some(Pair {
            strand,
            output,
            to,
            link,
        }),
        _ => None,
    }
}

// Whether it wants to write a new record on the output, which was moved out.
fn writes_new(asked: &Want, output: u16) -> bool
    ensures { result ≡ true → asked.now ≡ Asks.Write output (Outs.Fresh []) }
{
    match asked {
        Want::Write(o, Out::Fresh(rec)) => *o == output && rec.bytes().is_empty(),
        _ => false,
    }
}

/// What follows once two strands made rounds, or none.
#[derive(Clone, Copy)]
pub(crate) enum Relayed {
    /// The writer's record is due to be put, still or again.
    Due,
    /// The reader saw a record, and came home with another want.
    Home,
}

/// Why no round more was made.
#[derive(Clone, Copy)]
pub(crate) enum Last {
    /// None has room, or the writer shows no record: the one before is due to be put.
    Due,
    /// The reader saw the record that was shown, and asks for something else than the next one.
    Asks,
    /// It saw that record, and wants memory.
    Lacks,
}

/// How many rounds were made, and why no more.
#[derive(Clone, Copy)]
pub(crate) struct Made {
    pub(crate) rounds: u64,
    pub(crate) last: Last,
}

/// Makes the events of the two by which a record is put, and the next one seen and taken, as long as the writer shows that and
/// three events have room below the limit. The answer is what follows. After want of memory the reader is out.
#[inline(always)]
pub(crate) fn relay<S: Stage, G: Gate>(
    floor: &mut Floor,
    actors: &mut Vec<Actor<S>>,
    journal: &mut StepJournal,
    out: &mut Vec<u64>,
    alloc: Global,
    gate: &G,
    pair: Pair,
    limit: u64,
) -> Result<Relayed, NoMemory>
    requires sound { IsSound S.stands floor.old.net limit journal.old.items out.old.items actors.old.items floor.old.desk floor.old.pool }
    requires due { IsDue floor.old.net floor.old.desk floor.old.pool pair }
    requires writer { IsWriter actors.old.items pair }
    requires room { limit ≤ journal.old.room }
    requires room_out { length floor.old.net.strands ≤ vec_capacity out.old }
    ensures net { floor.new.net ≡ floor.old.net }
    ensures sound { IsSound S.stands floor.new.net limit journal.new.items out.new.items actors.new.items floor.new.desk floor.new.pool }
    ensures goes { IfOk result (λ next. HasRelayed floor.old.net out.old.items journal.old.items journal.new.items × (out.new.items ≡ out.old.items) × Follows next floor.new pair journal.old.items journal.new.items) }
    ensures lacks { OnErr result (HasRelayed floor.old.net out.old.items journal.old.items journal.new.items × (length journal.old.items < length journal.new.items) × (out.new.items ≡ out.old.items ++ length journal.new.items ∷ [])) }
    ensures capacity { journal.new.room ≡ journal.old.room }
    ensures capacity_out { vec_capacity out.new ≡ vec_capacity out.old }
{
    let Ok(room) = Vec::with_capacity(alloc, MOST_SHOWN) else {
        return Ok(Relayed::Due);
    };
    let mut source = begin(floor, actors, pair);
    // As many rounds are left as have room for their three entries.
    let most = (limit - journal.len()) / 3;
    let made = make_rounds(floor, actors, &mut source, alloc, gate, pair, most);
    let put = Entry {
        strand: pair.strand,
        stream: pair.output,
    };
    let taken = Entry {
        strand: pair.to,
        stream: 0,
    };
    journal.push_rounds(put, taken, taken, made.rounds);
    if let Last::Due = made.last {
        keep_last(floor, pair.link, room, &source, made.rounds);
        put_back(actors, pair.strand, source);
        return Ok(Relayed::Due);
    }
    end_at_sight(floor, actors, room, source, pair);
    journal.push_reserved(put);
    journal.push_reserved(taken);
    let place = journal.len();
    let reader = &mut actors[pair.to as usize];
    if let Last::Lacks = made.last {
        give_up(reader, out, place);
        return Err(NoMemory);
    }
    come_home(floor, reader, out, pair.to, place)
}

// The writer's coroutine is taken out of its place, and both strands are among those that may be ready.
#[inline(always)]
fn begin<S: Stage>(floor: &mut Floor, actors: &mut Vec<Actor<S>>, pair: Pair) -> S
    requires home { (a : ActorIs S) × (x : S) × (slice_get actors.old.items pair.strand ≡ Some a) × (a.stage ≡ Some x) }
    requires strand { pair.strand < length floor.old.net.strands }
    requires to { pair.to < length floor.old.net.strands }
    ensures source { (a : ActorIs S) × (slice_get actors.old.items pair.strand ≡ Some a) × (a.stage ≡ Some result) × (actors.new.items ≡ slice_set actors.old.items pair.strand (without_stage a)) }
    ensures net { floor.new.net ≡ floor.old.net }
    ensures desk { floor.new.desk ≡ floor.old.desk }
    ensures pool { floor.new.pool ≡ floor.old.pool }
    ensures writes { is_member floor.new.ready pair.strand ≡ true }
    ensures reads { is_member floor.new.ready pair.to ≡ true }
{
    floor.wake(pair.strand);
    floor.wake(pair.to);
    let actor = &mut actors[pair.strand as usize];
    let Some(source) = mem::replace(&mut actor.stage, None) else {
        unreachable!()
    };
    source
}

// Makes at most so many rounds: the record before is put, the writer shows the next one, and the reader sees and takes it.
#[inline(always)]
fn make_rounds<S: Stage, G: Gate>(
    floor: &mut Floor,
    actors: &mut Vec<Actor<S>>,
    source: &mut S,
    alloc: Global,
    gate: &G,
    pair: Pair,
    most: u64,
) -> Made
    requires { (m : Machine) × AreOn S.stands S.showing m pair floor.old actors.old.items source.old 0 × (length m.journal + 3 * most ≤ m.budget) }
    ensures net { floor.new.net ≡ floor.old.net }
    ensures within { result.rounds ≤ most }
    ensures ends { (m : Machine) → AreOn S.stands S.showing m pair floor.old actors.old.items source.old 0 → length m.journal + 3 * most ≤ m.budget →
        EndsAt S.stands S.showing m pair floor.new actors.new.items source.new result.rounds result.last }
{
    let mut rounds = 0;
    // So many bytes of the text that the writer has ahead don't hold what the reader awaits, and whether it awaits anything.
    let mut clear = 0;
    let mut awaits = true;
    while rounds < most {
        if !source.show(pair.output) {
            let last = Last::Due;
            return Made { rounds, last };
        }
        gate.enter(pair.to);
        let size = source.shown().len();
        if size < clear {
            clear -= size + 1;
            floor.relay(pair.link);
            rounds += 1;
            continue;
        }
        let reader = &mut actors[pair.to as usize];
        let bytes = bytes_shown(source, reader.looks);
        let reply = see(reader, alloc, 0, bytes);
        if let Ok(Reply::Takes) = reply {
            if awaits {
                clear = clear_ahead(&actors[pair.to as usize], source);
                awaits = clear > 0;
            }
            floor.relay(pair.link);
            rounds += 1;
            continue;
        }
        let Ok(_) = reply else {
            let last = Last::Lacks;
            return Made { rounds, last };
        };
        let last = Last::Asks;
        return Made { rounds, last };
    }
    let last = Last::Due;
    Made { rounds, last }
}

// The record that was shown last, where one was taken, is put in place of the one that is offered on a link.
#[inline(always)]
fn keep_last<S: Stage>(floor: &mut Floor, link: u32, room: Vec<u8>, source: &S, taken: u64)
    requires link { link < length floor.old.desk.wires }
    requires held { IsHeldIn floor.old.pool (offer_on (Telling.through floor.old.desk.wires (Some link))) }
    requires short { 0 < taken → length (S.showing source.now) ≤ 256 }
    requires empty { room.items ≡ [] }
    requires fits { 256 ≤ vec_capacity room }
    ensures net { floor.new.net ≡ floor.old.net }
    ensures desk { floor.new.desk ≡ floor.old.desk }
    ensures none { taken ≡ 0 → floor.new.pool ≡ floor.old.pool }
    ensures some { 0 < taken → (grip : ℕ) → offer_on (Telling.through floor.old.desk.wires (Some link)) ≡ Some grip → floor.new.pool ≡ pool_refilled floor.old.pool grip (S.showing source.now) }
{
    if taken == 0 {
        return;
    }
    floor.refill(link, copied(room, source.shown()));
}

// The record that was shown last is put in the pool, the reader is told that it sees it, and the writer's coroutine is back in
// its place.
#[inline(always)]
fn end_at_sight<S: Stage>(
    floor: &mut Floor,
    actors: &mut Vec<Actor<S>>,
    room: Vec<u8>,
    source: S,
    pair: Pair,
)
    requires shows { CanShow floor.old pair }
    requires short { length (S.showing source) ≤ 256 }
    requires empty { room.items ≡ [] }
    requires fits { 256 ≤ vec_capacity room }
    requires writer { pair.strand < length actors.old.items }
    ensures net { floor.new.net ≡ floor.old.net }
    ensures desk { floor.new.desk ≡ desk_showing floor.old.desk pair.to pair.link }
    ensures ready { floor.new.ready ≡ floor.old.ready }
    ensures pool { (grip : ℕ) → offer_on (Telling.through floor.old.desk.wires (Some pair.link)) ≡ Some grip → floor.new.pool ≡ pool_refilled floor.old.pool grip (S.showing source) }
    ensures back { (a : ActorIs S) → slice_get actors.old.items pair.strand ≡ Some a → actors.new.items ≡ slice_set actors.old.items pair.strand (with_stage source a) }
{
    floor.refill(pair.link, copied(room, source.shown()));
    floor.show(pair.to, pair.link);
    put_back(actors, pair.strand, source);
}

// A strand's coroutine is back in its place.
#[inline(always)]
fn put_back<S: Stage>(actors: &mut Vec<Actor<S>>, strand: u32, stage: S)
    requires { strand < length actors.old.items }
    ensures { (a : ActorIs S) → slice_get actors.old.items strand ≡ Some a → actors.new.items ≡ slice_set actors.old.items strand (with_stage stage a) }
{
    actors[strand as usize].stage = Some(stage);
}

// A strand that saw a record comes home with what it asks for. After want of memory it is out, with the entry of this place.
#[inline(always)]
fn come_home<S: Stage>(
    floor: &mut Floor,
    reader: &mut Actor<S>,
    out: &mut Vec<u64>,
    to: u32,
    place: u64,
) -> Result<Relayed, NoMemory>
    requires comes { MayCome floor.old to reader.old.asked }
    requires room { length out.old.items < vec_capacity out.old }
    ensures net { floor.new.net ≡ floor.old.net }
    ensures home { IfOk result (λ next. (next ≡ Next.Home) × HasReturned floor.old.desk floor.old.pool to reader.old.asked floor.new.desk floor.new.pool × (reader.new ≡ asking_for (bare reader.old.asked) reader.old) × (out.new.items ≡ out.old.items)) }
    ensures lacks { OnErr result ((floor.new.desk ≡ floor.old.desk) × (floor.new.pool ≡ floor.old.pool) × ((asked : Asked) × (reader.new ≡ given_up (asking_for asked reader.old))) × (out.new.items ≡ out.old.items ++ place ∷ [])) }
    ensures capacity { vec_capacity out.new ≡ vec_capacity out.old }
{
    let Ok(()) = floor.come_home(to, false, &mut reader.asked) else {
        give_up(reader, out, place);
        return Err(NoMemory);
    };
    Ok(Relayed::Home)
}

// So many bytes of the text that a source has ahead don't hold the string without which a reader takes a record as it sees it.
#[inline(never)]
fn clear_ahead<S: Stage>(reader: &Actor<S>, source: &S) -> usize
    ensures clear { IsClearFor S.stands reader.now (S.ahead source.now) result }
    ensures within { result ≤ 4096 }
{
    let Some(stage) = &reader.stage else {
        return 0;
    };
    match stage.awaits() {
        Some(string) => string.clear(source.text_ahead(), FAR),
        None => 0,
    }
}

// The bytes that a source showed last, where the strand that sees them looks.
#[inline(always)]
fn bytes_shown<S: Stage>(source: &S, looks: bool) -> &[u8]
    ensures looks { looks ≡ true → result.now ≡ S.showing source.now }
    ensures plain { looks ≡ false → result.now ≡ [] }
{
    if looks { source.shown() } else { &[] }
}

// The record of these bytes, in a room that holds them without growing.
fn copied(room: Vec<u8>, bytes: &[u8]) -> Rec
    requires empty { room.items ≡ [] }
    requires short { length bytes.now ≤ vec_capacity room }
    ensures { result ≡ bytes.now }
{
    let mut room = room;
    room.extend_from_slice(bytes).unwrap();
    Rec::from_vec(room)
}
