ghost use Rattle.std.specs.Prelude.{◌<◌, length, nat_lt, IfOk};
ghost use Rattle.std.specs.List.{IsFirstBest};
ghost use Rattle.pipe_model.specs.declared.net.Net.{Net};
ghost use Rattle.stall_lint.specs.Begun.{BeginsLeast};
ghost use Rattle.stall_lint.specs.ClosedWalks.{IsClosedWalk, IsRound};

use pipe_model::NoMemory;
use std::alloc::Global;

// The same walk from its least strand on, to the lesser of that one's two neighbours first.
pub(crate) fn turned(alloc: Global, walk: &[u32]) -> Result<Vec<u32>, NoMemory>
    ensures { (net : Net) → IsRound net walk.now → IfOk result (λ turned. IsClosedWalk net turned.items) }
{
    let mut turned = Vec::from_slice(alloc, walk)?;
    begin_least(&mut turned);
    turn(&mut turned);
    Ok(turned)
}

// Begins a walk at its least strand.
fn begin_least(walk: &mut [u32])
    ensures { (net : Net) → IsRound net walk.old → IsRound net walk.new × BeginsLeast walk.new }
{
    if !walk.is_empty() {
        walk.rotate_left(least_place(walk));
    }
}

// The place of the least of these numbers.
fn least_place(walk: &[u32]) -> usize
    requires { 0 < length walk.now }
    ensures { IsFirstBest nat_lt walk.now (length walk.now) result }
{
    let mut least = 0;
    for k in 1..walk.len() {
        if walk[k] < walk[least] {
            least = k;
        }
    }
    least
}

// Leaves the first strand of a walk and reads the others from the last one, if that is less than the second.
fn turn(walk: &mut [u32])
    ensures { (net : Net) → IsRound net walk.old → BeginsLeast walk.old → IsClosedWalk net walk.new }
{
    let count = walk.len();
    if count > 1 && walk[count - 1] < walk[1] {
        walk[1..].reverse();
    }
}
