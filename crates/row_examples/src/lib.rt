//! Examples of the stage table's rows, computed by the prover, and laws of all rows.
#![tactic(auto)]

ghost use Rattle.std.specs.Prelude.{◌≡◌, true};
ghost use Rattle.pipe_model.specs.Table.{form};

use pipe_model::Strand;

/// A strand that writes only what the record at hand causes, before it takes it, has one input.
pub fn thin_has_one_input(strand: &Strand)
    ensures { (form strand.now).thin ≡ true → (form strand.now).inputs ≡ 1 }
{}
