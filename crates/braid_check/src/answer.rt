ghost use Rattle.std.specs.Prelude.{◌≡◌, ◌<◌, ℕ, Some, length, slice_get, IfOk};
ghost use Rattle.pipe_model.specs.Settled.{connected_of, fork, has_none, rounds};
ghost use Rattle.pipe_model.specs.WellFormed.{IsWellFormed};
ghost use Rattle.braid_check.specs.Answer.{Tells};

use crate::kinds::meets;
use crate::rounds::last_round;
use crate::told::Settled;
use pipe_model::{Net, NoMemory, Strand};
use std::alloc::Global;

/// Whether a net is settled, and else the least strand by which it isn't.
///
/// # Errors
///
/// `NoMemory` where there is no memory for a few numbers for each strand and input.
pub fn settled(alloc: Global, net: &Net) -> Result<Settled, NoMemory>
    requires { IsWellFormed net.now }
    ensures { IfOk result (Tells net.now) }
{
    let forks = last_round(alloc, net)?;
    Ok(first_loose(net, &forks))
}

/// For each strand that takes what comes first the one at which the ways to it part, where they do.
///
/// # Errors
///
/// `NoMemory` where there is no memory for a few numbers for each strand and input.
pub fn forks(alloc: Global, net: &Net) -> Result<Vec<Option<u32>>, NoMemory>
    requires { IsWellFormed net.now }
    ensures count { IfOk result (λ forks. length forks.items ≡ length net.now.strands) }
    ensures each { IfOk result (λ forks. (s : ℕ) → s < length net.now.strands → slice_get forks.items s ≡ Some (fork net.now s)) }
{
    last_round(alloc, net)
}

// The least strand that doesn't meet what it owes.
fn first_loose(net: &Net, forks: &[Option<u32>]) -> Settled
    requires formed { IsWellFormed net.now }
    requires forks { forks.now ≡ rounds net.now (length net.now.strands) }
    ensures { Tells net.now result }
{
    let strands = net.strands.as_slice();
    for strand in 0..strands.len() as u32 {
        let place = strand as usize;
        let is_braided = forks[place].is_some() || is_unconnected(&strands[place]);
        if !meets(&strands[place].kind, is_braided) {
            return Settled::Loose(strand);
        }
    }
    Settled::Yes
}

// Whether no input of the strand is connected.
fn is_unconnected(strand: &Strand) -> bool
    ensures { result ≡ has_none (connected_of (Some strand.now)) }
{
    for flag in strand.ports.has_input.as_slice() {
        if *flag {
            return false;
        }
    }
    true
}
