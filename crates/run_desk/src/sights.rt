ghost use Rattle.std.specs.Prelude.{◌≡◌, ◌<◌, ℕ, Some, length};
ghost use Rattle.record_pool.specs.Places.{IsHeld, holders_at, shared};
ghost use Rattle.connectors.specs.WireState.{IsHeldIn, given_in};
ghost use Rattle.run_desk.specs.Telling.{numbered, sight_through, through, LeadsBelow};
ghost use Rattle.run_desk.specs.Turns.{list_changed_behind, hand_on, HasSight, sights_seen, pool_seen, no_sight, sights_without, pool_without, CanForget, CanShare, IsShare};

use connectors::Wire;
use record_pool::{Grip, Pool};

// The record at hand behind a door is seen: in the sight of this number a hold on it takes the place of the one on the
// record seen before.
#[inline(always)]
pub(crate) fn see_at(
    wires: &[Wire],
    sights: &mut Vec<Option<Grip>>,
    pool: &mut Pool,
    door: Option<u32>,
    place: Option<usize>,
)
    requires leads { LeadsBelow (length wires.now) door }
    requires there { (grip : ℕ) → hand_on (through wires.now door) ≡ Some grip → HasSight sights.old.items place }
    requires held { (grip : ℕ) → hand_on (through wires.now door) ≡ Some grip → IsHeld pool.old grip }
    requires room { (grip : ℕ) → hand_on (through wires.now door) ≡ Some grip → holders_at pool.old grip < 4294967295 }
    requires sight { IsHeldIn pool.old (sight_through sights.old.items place) }
    ensures sights { sights.new.items ≡ sights_seen sights.old.items place (hand_on (through wires.now door)) }
    ensures pool { pool.new ≡ pool_seen pool.old (sight_through sights.old.items place) (hand_on (through wires.now door)) }
{
    if let Some(j) = door {
        if let Some(grip) = wires[j as usize].at_hand() {
            match place {
                None => unreachable!(),
                Some(n) => look(&mut sights[n], pool, grip),
            }
        }
    }
}

#[inline(always)]
#[tactic(auto, using(crate::proofs::Holds::held_still))]
fn look(sight: &mut Option<Grip>, pool: &mut Pool, grip: &Grip)
    requires held { IsHeld pool.old grip.now }
    requires room { holders_at pool.old grip.now < 4294967295 }
    requires sight { IsHeldIn pool.old sight.old }
    ensures sight { sight.new ≡ Some grip.now }
    ensures pool { pool.new ≡ given_in (shared pool.old grip.now) sight.old }
{
    let hold = pool.share(grip);
    if let Some(before) = sight.replace(hold) {
        pool.give(before);
    }
}

// What was seen on these inputs, whose sights follow that of the first, is given back.
pub(crate) fn forget(
    sights: &mut Vec<Option<Grip>>,
    pool: &mut Pool,
    inputs: &[Option<u32>],
    first: u32,
)
    requires { CanForget (numbered first inputs.now) sights.old.items pool.old }
    ensures sights { sights.new.items ≡ sights_without (numbered first inputs.now) sights.old.items }
    ensures pool { pool.new ≡ pool_without (numbered first inputs.now) sights.old.items pool.old }
{
    let mut n = first as usize;
    for _ in inputs {
        forget_at(sights, pool, n);
        n += 1;
    }
}

fn forget_at(sights: &mut Vec<Option<Grip>>, pool: &mut Pool, n: usize)
    requires { IsHeldIn pool.old (sight_through sights.old.items (Some n)) }
    ensures sights { sights.new.items ≡ list_changed_behind sights.old.items no_sight (Some n) }
    ensures pool { pool.new ≡ given_in pool.old (sight_through sights.old.items (Some n)) }
{
    if let Some(sight) = sights.get_mut(n) {
        if let Some(grip) = sight.take() {
            pool.give(grip);
        }
    }
}

// One more hold on the record of a sight.
#[inline(always)]
pub(crate) fn hold_of(sights: &[Option<Grip>], pool: &mut Pool, door: Option<usize>) -> Grip
    requires { CanShare pool.old (sight_through sights.now door) }
    ensures { IsShare pool.old (sight_through sights.now door) result pool.new }
{
    match door {
        None => unreachable!(),
        Some(n) => match &sights[n] {
            Some(grip) => pool.share(grip),
            None => unreachable!(),
        },
    }
}
