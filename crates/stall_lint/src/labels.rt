ghost use Rattle.std.specs.Prelude.{◌≡◌, ◌<◌, ◌≤◌, ℕ, length, slice_index, IfOk};
ghost use Rattle.pipe_model.specs.WellFormed.{IsWellFormed};
ghost use Rattle.stall_lint.specs.Grouped.{AreInner, AreLabels};
ghost use Rattle.stall_lint.specs.Relabelled.{relabelled};

use pipe_model::{Net, NoMemory};
use std::alloc::Global;

// For each strand a label, the same for two exactly where a chain of inner links leads from the one to the other.
pub(crate) fn labels(alloc: Global, net: &Net, inner: &[bool]) -> Result<Vec<u32>, NoMemory>
    requires formed { IsWellFormed net.now }
    requires inner { AreInner net.now inner.now }
    ensures { IfOk result (λ labels. AreLabels net.now labels.items) }
{
    let mut labels = own_labels(alloc, net.strands.as_slice().len())?;
    let links = net.links.as_slice();
    for number in 0..links.len() {
        if inner[number] {
            let link = &links[number];
            unite(&mut labels, link.from, link.to);
        }
    }
    Ok(labels)
}

// For each of so many strands its own number.
fn own_labels(alloc: Global, count: usize) -> Result<Vec<u32>, NoMemory>
    requires { count ≤ 65536 }
    ensures count { IfOk result (λ labels. length labels.items ≡ count) }
    ensures own { IfOk result (λ labels. (k : ℕ) → k < count → slice_index labels.items k ≡ k) }
{
    let mut labels = Vec::new(alloc);
    for strand in 0..count {
        labels.push(strand as u32)?;
    }
    Ok(labels)
}

// Gives to all strands of the one's label that of the other.
fn unite(labels: &mut [u32], one: u32, other: u32)
    requires one { one < length labels.old }
    requires other { other < length labels.old }
    ensures { (k : ℕ) → k < length labels.old → slice_index labels.new k
        ≡ relabelled (slice_index labels.old one) (slice_index labels.old other) (slice_index labels.old k) }
{
    let lost = labels[one as usize];
    let kept = labels[other as usize];
    if lost == kept {
        return;
    }
    for label in labels {
        if *label == lost {
            *label = kept;
        }
    }
}
