//! Who makes the stages of a net.
ghost use Rattle.std.specs.Prelude.{◌≡◌, ◌≤◌, IfOk};
ghost use Rattle.pipe_model.specs.WellFormed.{IsWellFormed};
ghost use Rattle.core_machine.specs.Machine.{started};
ghost use Rattle.core_machine.specs.Start.{AreFresh};

use core_machine::Core;
use pipe_model::{Net, NoMemory};
use stage_steps::Stage;
use std::alloc::Global;

/// Makes the stages of nets.
pub trait Maker<S: Stage> {
    /// A stage for each strand of the net, before its first event.
    ///
    /// # Errors
    ///
    /// `NoMemory` where there is no memory for them.
    fn make(&self, alloc: Global, net: &Net) -> Result<Vec<S>, NoMemory>
        requires { IsWellFormed net.now }
        ensures { IfOk result (λ stages. AreFresh S.stands net.now.strands stages.items) };
}

// The net's core before its first step, for so many steps at most, with stages that the maker makes.
pub(crate) fn start_net<S: Stage, M: Maker<S>>(
    alloc: Global,
    net: Net,
    maker: &M,
    steps: u64,
) -> Result<Core<S>, NoMemory>
    requires whole { IsWellFormed net }
    requires few { steps ≤ 50000000 }
    ensures { IfOk result (λ core. core ≡ started net steps) }
{
    let stages = maker.make(alloc, &net)?;
    Core::start(alloc, net, stages, steps)
}
