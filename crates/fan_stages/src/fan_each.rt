use crate::fan_out::{Deals, FansOut};
use pipe_model::{NoMemory, Rec};
use stage_steps::{EachRecord, Group};
use std::alloc::Global;

/// The pairs of FANOUT and DEAL for each record. They are one type to the driver, so that each of them adds no driver to
/// the loop that runs them.
#[derive(Drop)]
pub enum FanEach {
    FanOut(FansOut),
    Deal(Deals),
}

impl EachRecord for FanEach {
    ghost use Rattle.fan_stages.specs.FanEach.{FanEachStand, fan_each_look, fan_each_left};

    ghost stands = { FanEachStand };

    ghost is_looking = { fan_each_look };

    ghost left = { fan_each_left };

    #[inline(always)]
    fn see(&mut self, alloc: Global, bytes: &[u8]) -> Result<(), NoMemory> {
        match self {
            FanEach::FanOut(each) => each.see(alloc, bytes),
            FanEach::Deal(each) => each.see(alloc, bytes),
        }
    }

    #[inline(always)]
    fn next(&mut self) -> Option<Group> {
        match self {
            FanEach::FanOut(each) => each.next(),
            FanEach::Deal(each) => each.next(),
        }
    }

    fn hand_over(&mut self, alloc: Global) -> Result<Rec, NoMemory> {
        match self {
            FanEach::FanOut(each) => each.hand_over(alloc),
            FanEach::Deal(each) => each.hand_over(alloc),
        }
    }

    fn looks(&self) -> bool {
        false
    }
}
