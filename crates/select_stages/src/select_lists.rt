use crate::any_pick::AnyPick;
use crate::picks::Picked;
use crate::window::Window;
use pipe_model::{NoMemory, Rec};
use stage_steps::{Group, Lists, Sifted, Sought};
use std::alloc::Global;

/// The lists of a stage of Selection. They have one driver, so that neither form adds one to the loop that runs them.
#[derive(Drop)]
pub enum SelectLists {
    /// Each record goes on one of two outputs.
    Pick(Picked<AnyPick>),
    /// The last records are held.
    Hold(Window),
}

impl Lists for SelectLists {
    ghost use Rattle.select_stages.specs.SelectLists.{SelectListsStand, select_lists_look, select_made, select_left};

    ghost stands = { SelectListsStand };

    ghost is_looking = { select_lists_look };

    ghost made = { select_made };

    ghost left = { select_left };

    fn begin(&mut self) {
        match self {
            SelectLists::Pick(lists) => lists.begin(),
            SelectLists::Hold(lists) => lists.begin(),
        }
    }

    #[inline(always)]
    fn see(&mut self, alloc: Global, bytes: &[u8]) -> Result<(), NoMemory> {
        match self {
            SelectLists::Pick(lists) => lists.see(alloc, bytes),
            SelectLists::Hold(lists) => lists.see(alloc, bytes),
        }
    }

    #[inline(always)]
    fn sift(&mut self, alloc: Global, bytes: &[u8]) -> Result<Sifted, NoMemory> {
        match self {
            SelectLists::Pick(lists) => lists.sift(alloc, bytes),
            SelectLists::Hold(lists) => lists.sift(alloc, bytes),
        }
    }

    #[inline(always)]
    fn awaits(&self) -> Option<&Sought> {
        match self {
            SelectLists::Pick(lists) => lists.awaits(),
            SelectLists::Hold(_) => None,
        }
    }

    fn end(&mut self, alloc: Global) -> Result<(), NoMemory> {
        match self {
            SelectLists::Pick(lists) => lists.end(alloc),
            SelectLists::Hold(lists) => lists.end(alloc),
        }
    }

    #[inline(always)]
    fn next(&mut self, alloc: Global) -> Result<Option<Group>, NoMemory> {
        match self {
            SelectLists::Pick(lists) => lists.next(alloc),
            SelectLists::Hold(lists) => lists.next(alloc),
        }
    }

    fn hand_over(&mut self, alloc: Global) -> Result<Rec, NoMemory> {
        match self {
            SelectLists::Pick(lists) => lists.hand_over(alloc),
            SelectLists::Hold(lists) => lists.hand_over(alloc),
        }
    }

    #[inline(always)]
    fn is_spent(&self) -> bool {
        match self {
            SelectLists::Pick(lists) => lists.is_spent(),
            SelectLists::Hold(lists) => lists.is_spent(),
        }
    }

    #[inline(always)]
    fn only_output(&self) -> Option<u16> {
        match self {
            SelectLists::Pick(_) => None,
            SelectLists::Hold(lists) => lists.only_output(),
        }
    }

    #[inline(always)]
    fn halts(&self) -> bool {
        match self {
            SelectLists::Pick(lists) => lists.halts(),
            SelectLists::Hold(lists) => lists.halts(),
        }
    }

    #[inline(always)]
    fn stops(&self) -> bool {
        match self {
            SelectLists::Pick(lists) => lists.stops(),
            SelectLists::Hold(lists) => lists.stops(),
        }
    }

    // None of these stages ends with another code.
    #[inline(always)]
    fn code(&self) -> i32 {
        0
    }

    fn looks(&self) -> bool {
        match self {
            SelectLists::Pick(lists) => lists.looks(),
            SelectLists::Hold(lists) => lists.looks(),
        }
    }
}
