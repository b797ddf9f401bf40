ghost use Rattle.std.specs.Prelude.{◌≡◌, ◌⊎◌, ℕ, List, []};
ghost use Rattle.pipe_model.specs.declared.net.Net.{Net};
ghost use Rattle.spec_scanner.specs.declared.fault.Fault.{Fault};
ghost use Rattle.spec_scanner.specs.declared.piece.Piece.{Piece};
ghost use Rattle.spec_scanner.specs.Reads.{IsRefused as IsTextRefused, Reads};
ghost use Rattle.spec_scanner.specs.Straight.{IsStraight};
ghost use Rattle.net_graph.specs.Faults.{IsGraph, IsRefused};
ghost use Rattle.net_graph.specs.Line.{line_net};

/// The text of a straight line reads as pieces that make the net of a straight line.
pub fn straight_net()
    ensures { (text : List ℕ) (strings : List (List ℕ)) → IsStraight text strings → (pipelines : List (List Piece)) × Reads text pipelines × IsGraph pipelines (line_net [] strings) }
{}

/// Pieces make one net at most.
pub fn one_net()
    ensures { (pipelines : List (List Piece)) (a b : Net) → IsGraph pipelines a → IsGraph pipelines b → a ≡ b }
{}

/// Pieces that make a net are not refused.
pub fn no_net_refusal()
    ensures { (pipelines : List (List Piece)) (net : Net) (fault : Fault) → IsGraph pipelines net → ¬ IsRefused pipelines fault }
{}

/// The pieces that a text reads as have one refusal at most.
pub fn one_net_refusal()
    ensures { (text : List ℕ) (pipelines : List (List Piece)) (a b : Fault) → Reads text pipelines → IsRefused pipelines a → IsRefused pipelines b → a ≡ b }
{}

/// All pieces make a net, or are refused.
pub fn each_graph()
    ensures { (pipelines : List (List Piece)) → ((net : Net) × IsGraph pipelines net) ⊎ ((fault : Fault) × IsRefused pipelines fault) }
{}

/// Each text reads as pieces that make a net, or it is refused, or they are.
pub fn each_net()
    ensures { (text : List ℕ) → ((pipelines : List (List Piece)) × (net : Net) × Reads text pipelines × IsGraph pipelines net) ⊎ ((fault : Fault) × (IsTextRefused text fault ⊎ ((pipelines : List (List Piece)) × Reads text pipelines × IsRefused pipelines fault))) }
{}
