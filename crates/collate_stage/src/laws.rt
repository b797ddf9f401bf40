ghost use Rattle.std.specs.Prelude.{◌≡◌, ◌<◌, ℕ, true, List, length};
ghost use Rattle.pipe_model.specs.declared.kind.Kind.TheVariants as Kinds;
ghost use Rattle.pipe_model.specs.declared.range.Range.{Range};
ghost use Rattle.pipe_model.specs.Event.{Event};
ghost use Rattle.pipe_model.specs.Alone.{IsAllAlone};
ghost use Rattle.pipe_model.specs.Listed.{are_distinct, are_sorted, collate_pairs, merge_pairs, Puts};
ghost use Rattle.stream_laws.specs.GivenLists.{given_by};
ghost use Rattle.collate_stage.specs.Plans.{is_collate};

use pipe_model::{Recs, Strand};

/// What COLLATE or MERGE does by itself on these inputs, where each of them is sorted and its outputs take all. MERGE puts
/// the stable sort of its inputs one after another. COLLATE, where no two masters have one key, parts the records by
/// whether the other input has their key: each master with details, once, before these.
pub fn lists(strand: &Strand, inputs: &[Recs])
    requires { is_collate strand.now.kind ≡ true }
    ensures merges { (range : Range) → strand.now.kind ≡ Kinds.Merge range →
        ((i : ℕ) → i < length strand.now.ports.has_input → are_sorted range ((given_by inputs.now).inputs i) ≡ true) →
        (h : List Event) → IsAllAlone strand.now (given_by inputs.now) h →
        Puts strand.now h (merge_pairs range (given_by inputs.now).inputs (length strand.now.ports.has_input)) }
    ensures collates { (masters details : Range) → strand.now.kind ≡ Kinds.Collate masters details →
        are_sorted masters ((given_by inputs.now).inputs 0) ≡ true → are_distinct masters ((given_by inputs.now).inputs 0) ≡ true → are_sorted details ((given_by inputs.now).inputs 1) ≡ true →
        (h : List Event) → IsAllAlone strand.now (given_by inputs.now) h →
        Puts strand.now h (collate_pairs masters details ((given_by inputs.now).inputs 0) ((given_by inputs.now).inputs 1)) }
{
    stream_laws::merge(strand);
    stream_laws::collate(strand);
}
