use crate::buffer::Buffers;
use pipe_model::{NoMemory, Rec};
use stage_steps::{Copies, Each, Group, Lists};
use std::alloc::Global;

/// The lists of BUFFER, and those of COPY, ELASTIC and DAM's first strand, which are the same. They have one driver, so that
/// none of them adds one to the loop that runs them.
#[derive(Drop)]
pub enum GateLists {
    Copy(Each<Copies>),
    Buffer(Buffers),
}

impl Lists for GateLists {
    ghost use Rattle.gate_elastic.specs.GateLists.{GateListsStand, gate_lists_look, gate_given, gate_left};

    ghost stands = { GateListsStand };

    ghost is_looking = { gate_lists_look };

    ghost made = { gate_given };

    ghost left = { gate_left };

    fn begin(&mut self) {
        match self {
            GateLists::Copy(lists) => lists.begin(),
            GateLists::Buffer(lists) => lists.begin(),
        }
    }

    #[inline(always)]
    fn see(&mut self, alloc: Global, bytes: &[u8]) -> Result<(), NoMemory> {
        match self {
            GateLists::Copy(lists) => lists.see(alloc, bytes),
            GateLists::Buffer(lists) => lists.see(alloc, bytes),
        }
    }

    fn end(&mut self, alloc: Global) -> Result<(), NoMemory> {
        match self {
            GateLists::Copy(lists) => lists.end(alloc),
            GateLists::Buffer(lists) => lists.end(alloc),
        }
    }

    #[inline(always)]
    fn next(&mut self, alloc: Global) -> Result<Option<Group>, NoMemory> {
        match self {
            GateLists::Copy(lists) => lists.next(alloc),
            GateLists::Buffer(lists) => lists.next(alloc),
        }
    }

    fn hand_over(&mut self, alloc: Global) -> Result<Rec, NoMemory> {
        match self {
            GateLists::Copy(lists) => lists.hand_over(alloc),
            GateLists::Buffer(lists) => lists.hand_over(alloc),
        }
    }

    // A copy is written of each record.
    #[inline(always)]
    fn is_spent(&self) -> bool {
        match self {
            GateLists::Copy(_) => false,
            GateLists::Buffer(lists) => lists.is_spent(),
        }
    }

    #[inline(always)]
    fn halts(&self) -> bool {
        false
    }

    #[inline(always)]
    fn stops(&self) -> bool {
        false
    }

    #[inline(always)]
    fn code(&self) -> i32 {
        0
    }

    fn looks(&self) -> bool {
        match self {
            GateLists::Copy(lists) => lists.looks(),
            GateLists::Buffer(lists) => lists.looks(),
        }
    }
}
