//! What one event may settle for many: a commit level that is full, and whether a stage's first strand has seen a record.
ghost use Rattle.std.specs.Prelude.{◌≡◌, ◌<◌, ◌||◌, length, not, slice_get, is_some, true, false, pos, negsuc};
ghost use Rattle.run_desk.specs.Turns.{ends};
ghost use Rattle.run_desk.specs.Telling as Telling;
ghost use Rattle.core_machine.specs.Woken.{IsLarger, IsWhole, IsStageIn, may_settle};

use crate::ready::Ready;
use pipe_model::Seen;
use run_desk::Desk;

/// Whether what is told may settle something for many.
pub(crate) fn may_settle(desk: &Desk, strand: u32, seen: Seen) -> bool
    requires { strand < length desk.now.seats }
    ensures { result ≡ may_settle desk.now strand seen }
{
    match seen {
        Seen::Saw(_) => !desk.is_primer(strand),
        Seen::Ended(_) => true,
        _ => false,
    }
}

/// Whether what is told is the strand's end.
pub(crate) fn ends(seen: Seen) -> bool
    ensures { result ≡ ends seen }
{
    matches!(seen, Seen::Ended(_))
}

/// What one event may settle for many. Yes where it is settled already, and where the event can't settle it.
#[derive(Clone, Copy)]
pub(crate) struct Settled {
    primer: bool,
    low: bool,
    zero: bool,
}

/// What is settled before the event.
pub(crate) fn settled_before(desk: &Desk, strand: u32, primes: bool, fills: bool) -> Settled
    requires { strand < length desk.now.seats }
    ensures primer { result.primer ≡ (not primes || is_some (Telling.primed_of (slice_get desk.now.seats strand))) }
    ensures low { result.low ≡ (not fills || is_some (Telling.level_code desk.now (negsuc 0))) }
    ensures zero { result.zero ≡ (not fills || is_some (Telling.level_code desk.now (pos 0))) }
{
    Settled {
        primer: !primes || desk.is_primer(strand),
        low: !fills || desk.level_code(-1).is_some(),
        zero: !fills || desk.level_code(0).is_some(),
    }
}

/// Wakes the strands for which the event settled something.
pub(crate) fn wake_settled(ready: &mut Ready, desk: &Desk, strand: u32, before: Settled)
    requires strand { strand < ready.old.size }
    requires seat { strand < length desk.now.seats }
    ensures larger { IsLarger ready.old ready.new }
    ensures stage { before.primer ≡ false → is_some (Telling.primed_of (slice_get desk.now.seats strand)) ≡ true → IsStageIn desk.now strand ready.new }
    ensures low { before.low ≡ false → is_some (Telling.level_code desk.now (negsuc 0)) ≡ true → IsWhole ready.new }
    ensures zero { before.zero ≡ false → is_some (Telling.level_code desk.now (pos 0)) ≡ true → IsWhole ready.new }
{
    let primed = !before.primer && desk.is_primer(strand);
    let low = !before.low && desk.level_code(-1).is_some();
    let zero = !before.zero && desk.level_code(0).is_some();
    wake_stage(ready, desk, strand, primed);
    wake_all(ready, low || zero);
}

fn wake_all(ready: &mut Ready, full: bool)
    ensures larger { IsLarger ready.old ready.new }
    ensures all { full ≡ true → IsWhole ready.new }
{
    if full {
        ready.insert_all();
    }
}

// The strands of a stage stand together, and its first one first.
fn wake_stage(ready: &mut Ready, desk: &Desk, strand: u32, primed: bool)
    requires { strand < ready.old.size }
    ensures larger { IsLarger ready.old ready.new }
    ensures stage { primed ≡ true → IsStageIn desk.now strand ready.new }
{
    if primed {
        wake_followers(ready, desk, strand);
    }
}

fn wake_followers(ready: &mut Ready, desk: &Desk, strand: u32)
    requires { strand < ready.old.size }
    ensures larger { IsLarger ready.old ready.new }
    ensures stage { IsStageIn desk.now strand ready.new }
{
    let size = ready.size();
    let mut next = strand + 1;
    while next < size {
        if desk.first_of(next) != strand {
            return;
        }
        ready.insert(next);
        next += 1;
    }
}
