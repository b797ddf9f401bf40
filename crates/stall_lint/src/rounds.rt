ghost use Rattle.std.specs.Prelude.{◌≡◌, ◌<◌, ◌++◌, length, slice_get, IfOk};
ghost use Rattle.pipe_model.specs.declared.net.Net.{Net};
ghost use Rattle.stall_lint.specs.Around.{within_group};
ghost use Rattle.stall_lint.specs.Circles.{IsCircle, next_hop};
ghost use Rattle.stall_lint.specs.ClosedWalks.{IsRound};

use crate::hops::Hop;
use pipe_model::NoMemory;
use std::alloc::Global;

// The strands to which and from which these hops go, in their order. A group that is entered and left by one strand has it once.
pub(crate) fn round(alloc: Global, hops: &[Hop]) -> Result<Vec<u32>, NoMemory>
    ensures { (net : Net) → IsCircle net hops.now → IfOk result (λ walk. IsRound net walk.items) }
{
    let mut walk = Vec::new(alloc);
    for k in 0..hops.len() {
        pass_group(&mut walk, hops[k].entry, next(hops, k).exit)?;
    }
    Ok(walk)
}

// The hop behind one, which behind the last is the first.
fn next(hops: &[Hop], k: usize) -> Hop
    requires { k < length hops.now }
    ensures { slice_get hops.now (next_hop hops.now k) ≡ Some result }
{
    if k + 1 == hops.len() {
        hops[0]
    } else {
        hops[k + 1]
    }
}

// Puts behind a walk the strand to which a group is entered, and the one from which it is left, where that is another.
fn pass_group(walk: &mut Vec<u32>, entry: u32, exit: u32) -> Result<(), NoMemory>
    ensures { IfOk result (λ done. walk.new.items ≡ walk.old.items ++ within_group entry exit) }
{
    walk.push(entry)?;
    if exit != entry {
        walk.push(exit)?;
    }
    Ok(())
}
