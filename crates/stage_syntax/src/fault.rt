ghost use Rattle.std.specs.Prelude.{◌≡◌};

use argument_parts::ArgFault;
use pipe_model::NoMemory;

/// Why a name and its arguments are no stage.
#[derive(Clone, Copy, Debug, PartialEq, Eq)]
pub enum KindFault {
    /// No stage has the name.
    Unknown,
    Argument(ArgFault),
    NoMemory,
}

impl From<NoMemory> for KindFault {
    ghost use Rattle.stage_syntax.specs.declared.fault.KindFault.{KindFault};

    ghost from_gives = { λ _ fault. fault ≡ KindFault.NoMemory };

    fn from(_fault: NoMemory) -> KindFault {
        KindFault::NoMemory
    }
}
