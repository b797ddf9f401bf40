ghost use Rattle.std.specs.Prelude.{◌≡◌};
ghost use Rattle.gate_elastic.specs.Gate.{is_gate};

use pipe_model::Kind;

/// Whether the stage of the kind is one of these.
pub fn is_gate(kind: &Kind) -> bool
    ensures { result ≡ is_gate kind.now }
{
    matches!(
        kind,
        Kind::Copy | Kind::Buffer | Kind::Elastic | Kind::Gate | Kind::Dam
    )
}
