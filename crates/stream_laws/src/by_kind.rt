ghost use Rattle.std.specs.Prelude.{◌≡◌, ◌<◌, ℕ, List, length, true};
ghost use Rattle.pipe_model.specs.declared.kind.Kind.TheVariants as Kinds;
ghost use Rattle.pipe_model.specs.declared.range.Range.{Range};
ghost use Rattle.pipe_model.specs.Event.{Event};
ghost use Rattle.pipe_model.specs.Alone.{Given, IsAllAlone};
ghost use Rattle.pipe_model.specs.Listed.{are_distinct, are_sorted, collate_pairs, fan_in_pairs, lookup_pairs, merge_pairs, IsUnlimited, Puts};
ghost use Rattle.stream_laws.specs.InOrder.{collated_in_order, PutsInOrder};

use pipe_model::Strand;

/// FANIN puts its inputs one after another.
pub fn fan_in(strand: &Strand)
    ensures each_list { strand.now.kind ≡ Kinds.FanIn → (g : Given) → IsUnlimited g → (h : List Event) → IsAllAlone strand.now g h →
        Puts strand.now h (fan_in_pairs g.inputs (length strand.now.ports.has_input)) }
    ensures in_order { strand.now.kind ≡ Kinds.FanIn → (g : Given) → IsUnlimited g → (h : List Event) → IsAllAlone strand.now g h →
        PutsInOrder strand.now h (fan_in_pairs g.inputs (length strand.now.ports.has_input)) }
{}

/// LOOKUP puts each detail with the first master of its key, or else alone, and at the end the masters that no detail matched.
pub fn look_up(strand: &Strand)
    ensures each_list { (details masters : Range) → strand.now.kind ≡ Kinds.Lookup details masters →
        (g : Given) → IsUnlimited g → (h : List Event) → IsAllAlone strand.now g h →
        Puts strand.now h (lookup_pairs details masters (g.inputs 0) (g.inputs 1)) }
    ensures in_order { (details masters : Range) → strand.now.kind ≡ Kinds.Lookup details masters →
        (g : Given) → IsUnlimited g → (h : List Event) → IsAllAlone strand.now g h →
        PutsInOrder strand.now h (lookup_pairs details masters (g.inputs 0) (g.inputs 1)) }
{}

/// MERGE puts the stable sort of its inputs one after another, where each of them is sorted.
pub fn merge(strand: &Strand)
    ensures each_list { (range : Range) → strand.now.kind ≡ Kinds.Merge range →
        (g : Given) → IsUnlimited g → ((i : ℕ) → i < length strand.now.ports.has_input → are_sorted range (g.inputs i) ≡ true) →
        (h : List Event) → IsAllAlone strand.now g h → Puts strand.now h (merge_pairs range g.inputs (length strand.now.ports.has_input)) }
    ensures in_order { (range : Range) → strand.now.kind ≡ Kinds.Merge range →
        (g : Given) → IsUnlimited g → ((i : ℕ) → i < length strand.now.ports.has_input → are_sorted range (g.inputs i) ≡ true) →
        (h : List Event) → IsAllAlone strand.now g h → PutsInOrder strand.now h (merge_pairs range g.inputs (length strand.now.ports.has_input)) }
{}

/// COLLATE parts the records by whether the other input has their key, where both inputs are sorted and no two masters
/// have one key: each master with details, once, before these. Where the details are sorted, it puts before each master
/// the details of lesser keys, then it with those of its key, and last the details that are left.
pub fn collate(strand: &Strand)
    ensures each_list { (masters details : Range) → strand.now.kind ≡ Kinds.Collate masters details →
        (g : Given) → IsUnlimited g → are_sorted masters (g.inputs 0) ≡ true → are_distinct masters (g.inputs 0) ≡ true → are_sorted details (g.inputs 1) ≡ true →
        (h : List Event) → IsAllAlone strand.now g h → Puts strand.now h (collate_pairs masters details (g.inputs 0) (g.inputs 1)) }
    ensures in_order { (masters details : Range) → strand.now.kind ≡ Kinds.Collate masters details →
        (g : Given) → IsUnlimited g → are_sorted details (g.inputs 1) ≡ true →
        (h : List Event) → IsAllAlone strand.now g h → PutsInOrder strand.now h (collated_in_order masters details (g.inputs 0) (g.inputs 1)) }
{}
