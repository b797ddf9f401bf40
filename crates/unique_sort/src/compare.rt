ghost use Rattle.std.specs.Prelude.{◌≡◌, ◌∷◌, []};
ghost use Rattle.std.specs.Ordering.{is_eq, is_lt};
ghost use Rattle.pipe_model.specs.Keys.{is_same};
ghost use Rattle.pipe_model.specs.OrderRows.{goes_before};
ghost use Rattle.pipe_model.specs.Ranges.{part_of};

use pipe_model::SortKey;
use stage_steps::part_of;
use std::cmp::Ordering;

// How two records compare by one key.
#[inline]
fn compared_by(key: SortKey, rec: &[u8], other: &[u8]) -> Ordering
    ensures ties { is_eq result ≡ is_same (part_of key.range rec.now) (part_of key.range other.now) }
    ensures less { is_lt result ≡ goes_before (key ∷ []) rec.now other.now }
{
    let order = part_of(key.range, rec).cmp(part_of(key.range, other));
    if key.descending {
        order.reverse()
    } else {
        order
    }
}

// How two records compare by the keys in turn.
#[inline]
pub(crate) fn compared(keys: &[SortKey], rec: &[u8], other: &[u8]) -> Ordering
    ensures { is_lt result ≡ goes_before keys.now rec.now other.now }
{
    for key in keys {
        let order = compared_by(*key, rec, other);
        if order.is_ne() {
            return order;
        }
    }
    Ordering::Equal
}
