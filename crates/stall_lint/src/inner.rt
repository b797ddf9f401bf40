ghost use Rattle.std.specs.Prelude.{◌≡◌, ◌<◌, ℕ, length, IfOk};
ghost use Rattle.pipe_model.specs.Settled.{IsSettled, or_else};
ghost use Rattle.pipe_model.specs.WellFormed.{IsWellFormed};
ghost use Rattle.braid_check.specs.Walks.{AreNexts, AreWithin, next_at};
ghost use Rattle.stall_lint.specs.Grouped.{AreInner};
ghost use Rattle.stall_lint.specs.WalksBack.{AreForks, AreMarked, AreMarkedLinks, ArePassed};

use braid_check::{forks, is_thin};
use pipe_model::{Net, NoMemory};
use std::alloc::Global;

// For each link whether it is an inner one: whether it leads to a strand that takes what comes first, or to one through which a walk goes from
// such a strand back to where its ways part.
pub(crate) fn inner_links(alloc: Global, net: &Net) -> Result<Vec<bool>, NoMemory>
    requires formed { IsWellFormed net.now }
    requires settled { IsSettled net.now }
    ensures { IfOk result (λ inner. AreInner net.now inner.items) }
{
    let forks = forks(alloc, net)?;
    let nexts = nexts(alloc, net, &forks)?;
    let passed = passed(alloc, net, &forks, &nexts)?;
    marks(alloc, net, &forks, &passed)
}

// For each link whether it leads to a strand to which ways part, or to one that a walk passes.
fn marks(
    alloc: Global,
    net: &Net,
    forks: &[Option<u32>],
    passed: &[bool],
) -> Result<Vec<bool>, NoMemory>
    requires formed { IsWellFormed net.now }
    requires forks { AreForks net.now forks.now }
    requires passed { length passed.now ≡ length net.now.strands }
    ensures { IfOk result (λ inner. AreMarkedLinks net.now passed.now (length net.now.links) inner.items) }
{
    let mut inner = Vec::new(alloc);
    for link in net.links.as_slice() {
        let to = link.to as usize;
        inner.push(forks[to].is_some() || passed[to])?;
    }
    Ok(inner)
}

// The next strand on the walk from each.
fn nexts(alloc: Global, net: &Net, forks: &[Option<u32>]) -> Result<Vec<Option<u32>>, NoMemory>
    requires formed { IsWellFormed net.now }
    requires forks { AreForks net.now forks.now }
    ensures { IfOk result (λ nexts. AreNexts net.now (length net.now.strands) nexts.items) }
{
    let mut nexts = thin_nexts(alloc, net)?;
    lead_over(&mut nexts, forks);
    Ok(nexts)
}

// The next strand on the walk from each, as long as it isn't known where ways part.
fn thin_nexts(alloc: Global, net: &Net) -> Result<Vec<Option<u32>>, NoMemory>
    requires { IsWellFormed net.now }
    ensures { IfOk result (λ nexts. AreNexts net.now 0 nexts.items) }
{
    let strands = net.strands.as_slice();
    let mut nexts = vec![in alloc; None; strands.len()]?;
    for link in net.links.as_slice() {
        let to = link.to as usize;
        if is_thin(&strands[to]) {
            nexts[to] = Some(link.from);
        }
    }
    Ok(nexts)
}

// Where the ways to a strand part, the next one on the walk from it is that where they do.
fn lead_over(nexts: &mut [Option<u32>], forks: &[Option<u32>])
    requires { length forks.now ≡ length nexts.old }
    ensures { (t : ℕ) → t < length nexts.old → next_at nexts.new t ≡ or_else (next_at forks.now t) (next_at nexts.old t) }
{
    for strand in 0..forks.len() {
        if forks[strand].is_some() {
            nexts[strand] = forks[strand];
        }
    }
}

// For each strand whether a walk goes on from it before where its ways part.
fn passed(
    alloc: Global,
    net: &Net,
    forks: &[Option<u32>],
    nexts: &[Option<u32>],
) -> Result<Vec<bool>, NoMemory>
    requires formed { IsWellFormed net.now }
    requires forks { AreForks net.now forks.now }
    requires nexts { AreNexts net.now (length net.now.strands) nexts.now }
    ensures { IfOk result (λ passed. ArePassed net.now nexts.now (length net.now.links) passed.items) }
{
    let mut passed = vec![in alloc; false; nexts.len()]?;
    for link in net.links.as_slice() {
        if let Some(fork) = forks[link.to as usize] {
            pass(nexts, &mut passed, link.from, fork);
        }
    }
    Ok(passed)
}

// Marks the strands on the walk from `start` before `fork`.
fn pass(nexts: &[Option<u32>], passed: &mut [bool], start: u32, fork: u32)
    requires start { start < length nexts.now }
    requires within { AreWithin nexts.now }
    requires passed { length passed.old ≡ length nexts.now }
    ensures { AreMarked nexts.now (length nexts.now) start fork passed.old passed.new }
{
    let mut at = start;
    for _ in 0..nexts.len() {
        if at == fork {
            return;
        }
        passed[at as usize] = true;
        match nexts[at as usize] {
            Some(next) => at = next,
            None => return,
        }
    }
}
