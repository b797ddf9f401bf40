ghost use Rattle.std.specs.Prelude.{◌≡◌};

use pipe_model::NoMemory;

/// Why pieces make no net: their fault of the least place, and of two at one place that of the lesser number, or want of memory.
/// The fault is of a kind from `UnknownStage` on; `argument` is the number of the fault of the arguments for `BadArguments`, else 0.
#[derive(Clone, Copy, Debug, PartialEq, Eq)]
pub enum NetFault {
    Refused {
        number: u8,
        argument: u8,
        place: u32,
    },
    NoMemory,
}

impl From<NoMemory> for NetFault {
    ghost use Rattle.net_graph.specs.declared.fault.NetFault.{NetFault};

    ghost from_gives = { λ _ fault. fault ≡ NetFault.NoMemory };

    fn from(_fault: NoMemory) -> NetFault {
        NetFault::NoMemory
    }
}
