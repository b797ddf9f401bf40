//! Workers that go on with one set after another.
ghost use Rattle.std.specs.Prelude.{◌≡◌, ℕ, ◌<◌, All, true, length, slice_index_or, vec_capacity};
ghost use Rattle.many_sets.specs.Hands.{MayWorkOn, AreLeftTo, HasTurnedOn};

use crate::hands::Hand;
use crate::numbers::next_number;
use board::{Board, Pass};
use crossbeam_deque::Stealer;
use outside::Gate;
use stage_steps::Stage;
use std::alloc::Global;
use std::sync::Wait;
use std::thread;
use std::thread::Threads;
use workers::{AfterTurn, FEWEST_TRIES, take_turn};

// Each works in a thread of its own, where one can be had.
pub(crate) fn work_all<S: Stage + Send, R: Threads + Wait + Sync, G: Gate + Sync>(
    rt: &R,
    alloc: Global,
    boards: &[Board<S>],
    stealers: &[Stealer<u32>],
    hands: &mut [Hand],
    gate: &G,
)
    requires passes { All (λ h. MayWorkOn boards.now h.passes.items) hands.old }
    ensures passes { (i : ℕ) (d : _) → i < length hands.old → AreLeftTo (slice_index_or hands.old i d).passes.items (slice_index_or hands.new i d).passes.items }
    ensures len { length hands.new ≡ length hands.old }
{
    let threads = hands.len().max(1);
    thread::for_each_mut(
        rt,
        hands,
        threads,
        &|own, hand: &mut Hand|
            requires { MayWorkOn boards.now hand.old.passes.items }
            ensures { AreLeftTo hand.old.passes.items hand.new.passes.items }
        { work_one(rt, alloc, boards, stealers, own, hand, gate) },
    );
}

// Makes a turn on one set after another, until no number is found. A number that its deque refuses is left out.
fn work_one<S: Stage, R: Wait, G: Gate>(
    rt: &R,
    alloc: Global,
    boards: &[Board<S>],
    stealers: &[Stealer<u32>],
    own: usize,
    hand: &mut Hand,
    gate: &G,
)
    requires { MayWorkOn boards.now hand.old.passes.items }
    ensures { AreLeftTo hand.old.passes.items hand.new.passes.items }
{
    for _ in rt.forever() {
        let Some(number) = next_number(&mut hand.numbers, stealers, own) else {
            return;
        };
        let passes = hand.passes.as_mut_slice();
        if turn_set(rt, alloc, boards, passes, &mut hand.room, number, gate) {
            let _ = hand.numbers.push(number);
        }
    }
}

// Makes a turn on the set of this number, where there is one. The answer is whether the turn was done: it isn't after the
// end or want of memory, nor where others have its jobs, nor where the pass has too few tries.
fn turn_set<S: Stage, R: Wait, G: Gate>(
    rt: &R,
    alloc: Global,
    boards: &[Board<S>],
    passes: &mut [Pass],
    room: &mut Vec<u8>,
    number: u32,
    gate: &G,
) -> bool
    requires { MayWorkOn boards.now passes.old }
    ensures left { AreLeftTo passes.old passes.new }
    ensures goes_on { result ≡ true → HasTurnedOn (G.is_open gate.now) number passes.old (vec_capacity room.old) passes.new (vec_capacity room.new) }
{
    let at = number as usize;
    if at >= boards.len() || passes[at].tries() < FEWEST_TRIES {
        return false;
    }
    match take_turn(rt, alloc, &boards[at], &mut passes[at], room, gate) {
        AfterTurn::Done => true,
        AfterTurn::Idle | AfterTurn::Ended(_) => false,
    }
}
