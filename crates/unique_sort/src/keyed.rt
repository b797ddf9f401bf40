ghost use Rattle.std.specs.Prelude.{◌≡◌, IfOk};
ghost use Rattle.std.specs.Ordering.{is_lt};
ghost use Rattle.unique_sort.specs.Fronts.{digit, behind_digit, reach, front, front_of, is_whole, keys_left, keyed_before};

use crate::compare::compared;
use pipe_model::{NoMemory, Rec, SortKey};
use stage_steps::part_of;
use std::alloc::Global;
use std::cmp::Ordering;

/// A record that SORT holds, with the front of its first key as a number. By the numbers alone most records are compared
/// without a look at their bytes.
#[derive(Drop)]
pub struct Keyed {
    front: u64,
    pub(crate) rec: Rec,
}

// The first digit of a key, and what is behind it. A digit is a byte, and 0 where the key has ended. An FF ends it: what is
// behind one is left to the comparison of the bytes.
#[inline]
fn first_digit(key: &[u8]) -> (u8, &[u8])
    ensures digit { result.0 ≡ digit key.now }
    ensures behind { result.1.now ≡ behind_digit key.now }
{
    match key {
        [] => (0, &[]),
        [255, ..] => (255, &[]),
        [byte, behind @ ..] => (*byte, behind),
    }
}

// How many digits a front has of a key. How far they reach is behind them.
const DIGITS: usize = 7;

// How far the digits of a key reach: its length where they have all of it, and else one more than they are.
#[inline]
fn reach(key: &[u8]) -> u8
    ensures { result ≡ reach 7 key.now }
{
    let mut len = 0u8;
    for byte in key {
        if len as usize == DIGITS || *byte == 255 {
            return DIGITS as u8 + 1;
        }
        len += 1;
    }
    len
}

// The front of a key as a number.
#[inline]
fn front_number(key: &[u8]) -> u64
    ensures { result ≡ front key.now }
{
    let mut number = 0u64;
    let mut rest = key;
    for _ in 0..DIGITS {
        let (digit, behind) = first_digit(rest);
        number = number * 256 + digit as u64;
        rest = behind;
    }
    number * 256 + reach(key) as u64
}

// The number that goes before where the front of the first key does.
fn front_of(keys: &[SortKey], rec: &[u8]) -> u64
    ensures { result ≡ front_of keys.now rec.now }
{
    match keys {
        [] => 0,
        [key, ..] => {
            let number = front_number(part_of(key.range, rec));
            if key.descending {
                u64::MAX - number
            } else {
                number
            }
        }
    }
}

// Whether a front has the whole key: its last digit is how far the others reach, the other way round where the key descends.
#[inline]
fn is_whole(front: u64) -> bool
    ensures { result ≡ is_whole front }
{
    let last = front % 256;
    last != 8 && last != 247
}

impl Keyed {
    ghost use Rattle.std.specs.Prelude.{◌≡◌, IfOk};
    ghost use Rattle.unique_sort.specs.Fronts.{keyed_by};

    // A copy of a record, to be sorted by these keys.
    pub(crate) fn new(alloc: Global, keys: &[SortKey], rec: &[u8]) -> Result<Keyed, NoMemory>
        ensures { IfOk result (λ it. it ≡ keyed_by keys.now rec.now) }
    {
        Ok(Keyed {
            front: front_of(keys, rec),
            rec: Rec::from_slice(alloc, rec)?,
        })
    }
}

// The keys by which records are still to be compared whose fronts are the same.
#[inline]
fn keys_left(keys: &[SortKey], front: u64) -> &[SortKey]
    ensures { result.now ≡ keys_left keys.now front }
{
    match keys {
        [_, left @ ..] if is_whole(front) => left,
        _ => keys,
    }
}

// How two records compare by these keys.
#[inline]
pub(crate) fn compared_keyed(keys: &[SortKey], keyed: &Keyed, other: &Keyed) -> Ordering
    ensures { is_lt result ≡ keyed_before keys.now keyed.now other.now }
{
    if keyed.front == other.front {
        let left = keys_left(keys, keyed.front);
        compared(left, keyed.rec.bytes(), other.rec.bytes())
    } else {
        keyed.front.cmp(&other.front)
    }
}
