ghost use Rattle.std.specs.Prelude.{◌≡◌, ◌≤◌, true, false, length, AllPairs, IfOk};
ghost use Rattle.std.specs.List.Sorted.{IsPartitionPoint};
ghost use Rattle.collate_stage.specs.Queues.{goes_before, sees_at, waits, IsQueue};

use crate::lane::Lane;
use pipe_model::NoMemory;
use stage_steps::is_less;

// Whether the record of one input goes before that of another: the less key, and of equal keys that of the lower input.
#[inline(always)]
fn goes_before(lanes: &[Lane], input: u16, other: u16) -> bool
    ensures { result ≡ goes_before lanes.now input other }
{
    let Some(lane) = lanes.get(input as usize) else {
        return false;
    };
    let Some(rival) = lanes.get(other as usize) else {
        return false;
    };
    if input < other {
        !is_less(&rival.key, &lane.key)
    } else {
        is_less(&lane.key, &rival.key)
    }
}

// The place of an input in the queue: its record goes before those of all inputs in front of that place.
fn place_of(lanes: &[Lane], queue: &[u16], input: u16) -> usize
    ensures bound { result ≤ length queue.now }
    ensures parts { AllPairs (λ i j. goes_before lanes.now j i ≡ true) queue.now →
        IsPartitionPoint (λ j. goes_before lanes.now input j ≡ true) (λ j. goes_before lanes.now input j ≡ false) queue.now result }
{
    queue.partition_point(|other| goes_before(lanes, input, *other))
}

// Whether a record is in sight on an input.
#[inline(always)]
fn sees_at(lanes: &[Lane], input: u16) -> bool
    ensures { result ≡ sees_at lanes.now input }
{
    match lanes.get(input as usize) {
        Some(lane) => lane.is_in_sight(),
        None => false,
    }
}

// The queue had the inputs with a record in sight but this one, which is put to its place if a record is in sight there too.
pub(crate) fn put_in(lanes: &[Lane], queue: &mut Vec<u16>, input: u16) -> Result<(), NoMemory>
    ensures { IfOk result (λ _. IsQueue lanes.now (waits lanes.now input) queue.old.items → IsQueue lanes.now (sees_at lanes.now) queue.new.items) }
{
    if sees_at(lanes, input) {
        let place = place_of(lanes, queue, input);
        queue.insert(place, input)?;
    }
    Ok(())
}
