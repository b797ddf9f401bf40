ghost use Rattle.std.specs.Prelude.{◌≡◌, ◌⊎◌, ℕ, List, Some, slice_get};
ghost use Rattle.stage_syntax.specs.Arg.{IsArg};
ghost use Rattle.spec_scanner.specs.declared.fault.Fault.{Fault};
ghost use Rattle.spec_scanner.specs.declared.piece.Piece.{Piece};
ghost use Rattle.spec_scanner.specs.Reads.{IsRefused, Reads};

/// A text reads in one way at most.
pub fn one_reading_of()
    ensures { (text : List ℕ) (a b : List (List Piece)) → Reads text a → Reads text b → a ≡ b }
{}

/// A text that reads as something has no fault.
pub fn no_refusal()
    ensures { (text : List ℕ) (pipelines : List (List Piece)) (fault : Fault) → Reads text pipelines → ¬ IsRefused text fault }
{}

/// A text has one refusal at most.
pub fn one_refusal_of()
    ensures { (text : List ℕ) (a b : Fault) → IsRefused text a → IsRefused text b → a ≡ b }
{}

/// The places of each argument of a text that reads as something rise below its end.
pub fn places_rise()
    ensures { (text : List ℕ) (pipelines : List (List Piece)) → Reads text pipelines → (k j : ℕ) (pieces : List Piece) (piece : Piece) → slice_get pipelines k ≡ Some pieces → slice_get pieces j ≡ Some piece → IsArg piece.arg }
{}

/// Each text reads as something, or is refused.
pub fn each_text()
    ensures { (text : List ℕ) → ((pipelines : List (List Piece)) × Reads text pipelines) ⊎ ((fault : Fault) × IsRefused text fault) }
{}
