ghost use Rattle.std.specs.Prelude.{◌≡◌, length};
ghost use Rattle.argument_parts.specs.declared.refusal.Refusal.{Refusal};

use crate::fault::FaultKind;
use crate::part::TextFault;
use pipe_model::NoMemory;

/// Why nothing was read of a text: a fault in it, or want of memory.
#[derive(Clone, Copy, Debug, PartialEq, Eq)]
pub enum Refusal {
    Fault(TextFault),
    NoMemory,
}

impl Refusal {
    /// A fault at the front of a text.
    pub fn at(text: &[u8], kind: FaultKind) -> Refusal
        ensures { result ≡ Refusal.Fault (record { left = length text.now; kind = kind }) }
    {
        Refusal::Fault(TextFault {
            left: text.len(),
            kind,
        })
    }
}

impl From<TextFault> for Refusal {
    ghost use Rattle.std.specs.Prelude.{◌≡◌};
    ghost use Rattle.argument_parts.specs.declared.refusal.Refusal.{Refusal};

    ghost from_gives = { λ fault refusal. refusal ≡ Refusal.Fault fault };

    fn from(fault: TextFault) -> Refusal {
        Refusal::Fault(fault)
    }
}

impl From<NoMemory> for Refusal {
    ghost use Rattle.std.specs.Prelude.{◌≡◌};
    ghost use Rattle.argument_parts.specs.declared.refusal.Refusal.{Refusal};

    ghost from_gives = { λ _ refusal. refusal ≡ Refusal.NoMemory };

    fn from(_fault: NoMemory) -> Refusal {
        Refusal::NoMemory
    }
}
