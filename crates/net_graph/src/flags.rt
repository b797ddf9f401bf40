ghost use Rattle.std.specs.Prelude.{◌≡◌, ◌≤◌, ◌<◌, ◌+◌, ◌*◌, ◌==◌, ◌&&◌, ◌||◌, ℕ, false, length, get_or, take, drop, IfOk};
ghost use Rattle.net_graph.specs.Flags.{AreFlags};
ghost use Rattle.net_graph.specs.Nets.{is_linked_in, is_linked_out};

use pipe_model::{Link, NoMemory};
use std::alloc::Global;

// Marks a place of a strand.
fn mark(flags: &mut Vec<bool>, strand: u32, place: u16)
    ensures size { length flags.new.items ≡ length flags.old.items }
    ensures marked { (s p : ℕ) → p < 64 → 64 * s + p < length flags.old.items → get_or flags.new.items (64 * s + p) false ≡ (get_or flags.old.items (64 * s + p) false || ((strand == s) && (place == p))) }
{
    if place < 64
        && let Some(flag) = flags.get_mut(64 * strand as usize + usize::from(place))
    {
        *flag = true;
    }
}

// Which inputs of so many strands have a link.
pub(crate) fn linked_inputs(
    alloc: Global,
    links: &[Link],
    strands: usize,
) -> Result<Vec<bool>, NoMemory>
    requires { strands ≤ 65536 }
    ensures { IfOk result (λ flags. AreFlags flags.items strands (is_linked_in links.now)) }
{
    let mut flags = vec![in alloc; false; 64 * strands]?;
    for link in links {
        mark(&mut flags, link.to, link.input);
    }
    Ok(flags)
}

// Which outputs of so many strands have a link.
pub(crate) fn linked_outputs(
    alloc: Global,
    links: &[Link],
    strands: usize,
) -> Result<Vec<bool>, NoMemory>
    requires { strands ≤ 65536 }
    ensures { IfOk result (λ flags. AreFlags flags.items strands (is_linked_out links.now)) }
{
    let mut flags = vec![in alloc; false; 64 * strands]?;
    for link in links {
        mark(&mut flags, link.from, link.output);
    }
    Ok(flags)
}

// The flags of the first places of a strand.
pub(crate) fn row(flags: &[bool], strand: usize, places: u16) -> &[bool]
    requires few { strand < 65536 }
    requires within { 64 * strand + places ≤ length flags.now }
    ensures { result.now ≡ take places (drop (64 * strand) flags.now) }
{
    let first = 64 * strand;
    &flags[first..first + usize::from(places)]
}
