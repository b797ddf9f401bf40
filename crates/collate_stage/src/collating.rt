ghost use Rattle.std.specs.Prelude.{◌≡◌, ◌≤◌, length};

use crate::collate::Collate;
use crate::merge::Merge;
use pipe_model::{Kind, NoMemory, Strand};
use stage_steps::{Act, Goal, Plans};
use std::alloc::Global;

/// The plans of COLLATE and MERGE. They are one type to the driver, so that each of them adds no driver to the loop that
/// runs them.
#[derive(Drop)]
pub enum Collating {
    Collate(Collate),
    Merge(Merge),
}

// How many inputs a strand has.
fn inputs_of(strand: &Strand) -> u16
    requires { length strand.now.ports.has_input ≤ 64 }
    ensures { result ≡ length strand.now.ports.has_input }
{
    strand.ports.has_input.as_slice().len() as u16
}

impl Collating {
    ghost use Rattle.std.specs.Prelude.{◌≡◌, ◌≤◌, true, length, IfOk};
    ghost use Rattle.collate_stage.specs.Plans.{is_collate, ArePlansOf};

    // The plans of a strand, before its first event.
    pub(crate) fn new(alloc: Global, strand: &Strand) -> Result<Collating, NoMemory>
        requires kind { is_collate strand.now.kind ≡ true }
        requires few { length strand.now.ports.has_input ≤ 64 }
        ensures { IfOk result (λ plans. ArePlansOf strand.now plans) }
    {
        match &strand.kind {
            Kind::Collate { masters, details } => {
                Ok(Collating::Collate(Collate::new(alloc, *masters, *details)))
            }
            Kind::Merge(range) => {
                let count = inputs_of(strand);
                Ok(Collating::Merge(Merge::new(alloc, *range, count)?))
            }
            _ => unreachable!(),
        }
    }
}

impl Plans for Collating {
    ghost use Rattle.collate_stage.specs.Plans.{CollatingStands, collating_looks, collating_left};

    ghost stands = { CollatingStands };

    ghost is_looking = { collating_looks };

    ghost left = { collating_left };

    fn see(&mut self, alloc: Global, input: u16, bytes: &[u8]) -> Result<(), NoMemory> {
        match self {
            Collating::Collate(plans) => plans.see(alloc, input, bytes),
            Collating::Merge(plans) => plans.see(alloc, input, bytes),
        }
    }

    fn end(&mut self, alloc: Global, input: u16) -> Result<(), NoMemory> {
        match self {
            Collating::Collate(plans) => plans.end(alloc, input),
            Collating::Merge(plans) => plans.end(alloc, input),
        }
    }

    fn end_all(&mut self) {
        match self {
            Collating::Collate(plans) => plans.end_all(),
            Collating::Merge(plans) => plans.end_all(),
        }
    }

    fn prime(&mut self, primed: bool) {
        match self {
            Collating::Collate(plans) => plans.prime(primed),
            Collating::Merge(plans) => plans.prime(primed),
        }
    }

    fn next(&mut self, alloc: Global) -> Result<Option<Act>, NoMemory> {
        match self {
            Collating::Collate(plans) => plans.next(alloc),
            Collating::Merge(plans) => plans.next(alloc),
        }
    }

    fn goal(&self) -> Goal {
        match self {
            Collating::Collate(plans) => plans.goal(),
            Collating::Merge(plans) => plans.goal(),
        }
    }

    fn looks(&self) -> bool {
        true
    }
}
