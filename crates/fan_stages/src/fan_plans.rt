use crate::fan_any::{FansInAny, Juxtaposes};
use crate::fan_in::FanIn;
use crate::gather::Gather;
use crate::overlay::Overlays;
use crate::synchronise::Synchronises;
use pipe_model::NoMemory;
use stage_steps::{Act, Goal, Plans};
use std::alloc::Global;

/// The plans of the stages that bring streams together. They are one type to the driver, so that each of them adds no
/// driver to the loop that runs them.
#[derive(Drop)]
pub enum FanPlans {
    FanIn(FanIn),
    FanInAny(FansInAny),
    Gather(Gather),
    Overlay(Overlays),
    Synchronise(Synchronises),
    Juxtapose(Juxtaposes),
}

impl Plans for FanPlans {
    ghost use Rattle.fan_stages.specs.FanPlans.{FanPlansStand, fan_plans_look, fan_plans_left};

    ghost stands = { FanPlansStand };

    ghost is_looking = { fan_plans_look };

    ghost left = { fan_plans_left };

    #[inline(always)]
    fn see(&mut self, alloc: Global, input: u16, bytes: &[u8]) -> Result<(), NoMemory> {
        match self {
            FanPlans::FanIn(plans) => plans.see(alloc, input, bytes),
            FanPlans::FanInAny(plans) => plans.see(alloc, input, bytes),
            FanPlans::Gather(plans) => plans.see(alloc, input, bytes),
            FanPlans::Overlay(plans) => plans.see(alloc, input, bytes),
            FanPlans::Synchronise(plans) => plans.see(alloc, input, bytes),
            FanPlans::Juxtapose(plans) => plans.see(alloc, input, bytes),
        }
    }

    fn end(&mut self, alloc: Global, input: u16) -> Result<(), NoMemory> {
        match self {
            FanPlans::FanIn(plans) => plans.end(alloc, input),
            FanPlans::FanInAny(plans) => plans.end(alloc, input),
            FanPlans::Gather(plans) => plans.end(alloc, input),
            FanPlans::Overlay(plans) => plans.end(alloc, input),
            FanPlans::Synchronise(plans) => plans.end(alloc, input),
            FanPlans::Juxtapose(plans) => plans.end(alloc, input),
        }
    }

    fn end_all(&mut self) {
        match self {
            FanPlans::FanIn(plans) => plans.end_all(),
            FanPlans::FanInAny(plans) => plans.end_all(),
            FanPlans::Gather(plans) => plans.end_all(),
            FanPlans::Overlay(plans) => plans.end_all(),
            FanPlans::Synchronise(plans) => plans.end_all(),
            FanPlans::Juxtapose(plans) => plans.end_all(),
        }
    }

    fn prime(&mut self, primed: bool) {
        match self {
            FanPlans::FanIn(plans) => plans.prime(primed),
            FanPlans::FanInAny(plans) => plans.prime(primed),
            FanPlans::Gather(plans) => plans.prime(primed),
            FanPlans::Overlay(plans) => plans.prime(primed),
            FanPlans::Synchronise(plans) => plans.prime(primed),
            FanPlans::Juxtapose(plans) => plans.prime(primed),
        }
    }

    #[inline(always)]
    fn next(&mut self, alloc: Global) -> Result<Option<Act>, NoMemory> {
        match self {
            FanPlans::FanIn(plans) => plans.next(alloc),
            FanPlans::FanInAny(plans) => plans.next(alloc),
            FanPlans::Gather(plans) => plans.next(alloc),
            FanPlans::Overlay(plans) => plans.next(alloc),
            FanPlans::Synchronise(plans) => plans.next(alloc),
            FanPlans::Juxtapose(plans) => plans.next(alloc),
        }
    }

    #[inline(always)]
    fn goal(&self) -> Goal {
        match self {
            FanPlans::FanIn(plans) => plans.goal(),
            FanPlans::FanInAny(plans) => plans.goal(),
            FanPlans::Gather(plans) => plans.goal(),
            FanPlans::Overlay(plans) => plans.goal(),
            FanPlans::Synchronise(plans) => plans.goal(),
            FanPlans::Juxtapose(plans) => plans.goal(),
        }
    }

    #[inline(always)]
    fn looks(&self) -> bool {
        match self {
            FanPlans::FanIn(plans) => plans.looks(),
            FanPlans::FanInAny(plans) => plans.looks(),
            FanPlans::Gather(plans) => plans.looks(),
            FanPlans::Overlay(plans) => plans.looks(),
            FanPlans::Synchronise(plans) => plans.looks(),
            FanPlans::Juxtapose(plans) => plans.looks(),
        }
    }
}
