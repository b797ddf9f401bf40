ghost use Rattle.std.specs.Prelude.{◌≡◌};
ghost use Rattle.device_stages.specs.Device.{is_device};

use pipe_model::Kind;

/// Whether a stage of the kind is a device.
pub fn is_device(kind: &Kind) -> bool
    ensures { result ≡ is_device kind.now }
{
    matches!(
        kind,
        Kind::ConsoleIn { .. }
            | Kind::ConsoleOut
            | Kind::FileIn { .. }
            | Kind::FileOut { .. }
            | Kind::Literal { .. }
            | Kind::Hole
    )
}
