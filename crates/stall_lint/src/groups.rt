ghost use Rattle.std.specs.Prelude.{IfOk};
ghost use Rattle.pipe_model.specs.Settled.{IsSettled};
ghost use Rattle.pipe_model.specs.WellFormed.{IsWellFormed};
ghost use Rattle.stall_lint.specs.Grouped.{AreGroups};

use crate::inner::inner_links;
use crate::labels::labels;
use pipe_model::{Net, NoMemory};
use std::alloc::Global;

/// The groups of a net's strands.
#[derive(Drop)]
pub(crate) struct Groups {
    /// For each link whether it is an inner one.
    pub(crate) inner: Vec<bool>,
    /// For each strand a number less than that of all strands, the same for strands of one group.
    pub(crate) labels: Vec<u32>,
}

// The groups of a net.
pub(crate) fn groups_of(alloc: Global, net: &Net) -> Result<Groups, NoMemory>
    requires formed { IsWellFormed net.now }
    requires settled { IsSettled net.now }
    ensures { IfOk result (AreGroups net.now) }
{
    let inner = inner_links(alloc, net)?;
    let labels = labels(alloc, net, &inner)?;
    Ok(Groups { inner, labels })
}
