ghost use Rattle.std.specs.Prelude.{List};
ghost use Rattle.pipe_model.specs.Event.{Event};
ghost use Rattle.pipe_model.specs.Row.{Pair};
ghost use Rattle.pipe_model.specs.Table.{line_of};
ghost use Rattle.pipe_model.specs.Alone.{Given, IsAllAlone};
ghost use Rattle.pipe_model.specs.Listed.{IsListed, IsUnlimited, Puts};
ghost use Rattle.stream_laws.specs.InOrder.{IsListedInOrder, PutsInOrder};

use pipe_model::Strand;

/// What a strand does by itself, by the shape of its row: each list of records that one list decides is a function of it,
/// and so is what it puts on all its outputs together.
pub fn lists(strand: &Strand)
    ensures each_list { (g : Given) → IsUnlimited g → (h : List Event) → IsAllAlone strand.now g h → IsListed strand.now (line_of strand.now.kind).shape g h }
    ensures in_order { (g : Given) → IsUnlimited g → (h : List Event) → IsAllAlone strand.now g h → IsListedInOrder strand.now (line_of strand.now.kind).shape g h }
{}

/// From what is put in order follows what is put on each output.
pub fn each_output(strand: &Strand)
    ensures { (h : List Event) (pairs : List Pair) → PutsInOrder strand.now h pairs → Puts strand.now h pairs }
{}
