ghost use Rattle.std.specs.Prelude.{◌≡◌};

use crate::any_edit::AnyEdit;
use crate::change::Changes;
use crate::chop::Chops;
use crate::duplicate::Duplicates;
use crate::edits::Edited;
use crate::join::Joins;
use crate::pad::Pads;
use crate::reverse::Reverses;
use crate::split::Splits;
use crate::strip::Strips;
use crate::xlate::Xlates;
use pipe_model::{Kind, NoMemory, Rec};
use stage_steps::{Each, Group, Lists, Order};
use std::alloc::Global;

/// The lists of a stage of Editing. They are one type to the driver, so that a further stage adds no driver to the loop
/// that runs them.
#[derive(Drop)]
pub enum AnyLists {
    Duplicate(Each<Duplicates>),
    Edit(Each<Edited<AnyEdit>>),
    Chop(Each<Chops>),
    Split(Each<Splits>),
    Join(Joins),
}

impl AnyLists {
    ghost use Rattle.std.specs.Prelude.{◌≡◌, true, IfOk};
    ghost use Rattle.edit_stages.specs.AnyLists.{any_order, AreListsOf};
    ghost use Rattle.edit_stages.specs.Edit.{is_edit};

    // The lists of a kind of Editing, before the first record.
    pub(crate) fn new(alloc: Global, kind: &Kind) -> Result<AnyLists, NoMemory>
        requires { is_edit kind.now ≡ true }
        ensures { IfOk result (λ lists. AreListsOf kind.now lists) }
    {
        match kind {
            Kind::Duplicate(copies) => Ok(AnyLists::Duplicate(Duplicates::lists(*copies))),
            Kind::Chop(width) => Ok(AnyLists::Chop(Chops::lists(alloc, *width))),
            Kind::Split { set } => Ok(AnyLists::Split(Splits::lists(alloc, set)?)),
            Kind::Join { more, between } => Ok(AnyLists::Join(Joins::new(alloc, *more, between)?)),
            Kind::Reverse => {
                let edits = AnyEdit::Reverse(Reverses);
                Ok(AnyLists::Edit(Edited::lists(edits)))
            }
            Kind::Strip {
                leading,
                trailing,
                set,
            } => {
                let strips = Strips::new(alloc, *leading, *trailing, set)?;
                Ok(AnyLists::Edit(Edited::lists(AnyEdit::Strip(strips))))
            }
            Kind::Xlate(mapping) => {
                let xlates = Xlates::new(alloc, mapping)?;
                Ok(AnyLists::Edit(Edited::lists(AnyEdit::Xlate(xlates))))
            }
            Kind::Pad { left, width, fill } => {
                let pads = Pads {
                    left: *left,
                    width: *width,
                    fill: *fill,
                };
                Ok(AnyLists::Edit(Edited::lists(AnyEdit::Pad(pads))))
            }
            Kind::Change {
                range,
                sought,
                put,
                times,
            } => {
                let changes = Changes::new(alloc, *range, sought, put, *times)?;
                Ok(AnyLists::Edit(Edited::lists(AnyEdit::Change(changes))))
            }
            _ => unreachable!(),
        }
    }

    // JOIN takes each record before it writes.
    pub(crate) fn order(&self) -> Order
        ensures { result ≡ any_order self.now }
    {
        match self {
            AnyLists::Join(_) => Order::TakesFirst,
            _ => Order::WritesFirst,
        }
    }
}

impl Lists for AnyLists {
    ghost use Rattle.edit_stages.specs.AnyLists.{AnyListsStand, any_look, any_given, any_left};

    ghost stands = { AnyListsStand };

    ghost is_looking = { any_look };

    ghost made = { any_given };

    ghost left = { any_left };

    fn begin(&mut self) {
        match self {
            AnyLists::Duplicate(lists) => lists.begin(),
            AnyLists::Edit(lists) => lists.begin(),
            AnyLists::Chop(lists) => lists.begin(),
            AnyLists::Split(lists) => lists.begin(),
            AnyLists::Join(lists) => lists.begin(),
        }
    }

    #[inline(always)]
    fn see(&mut self, alloc: Global, bytes: &[u8]) -> Result<(), NoMemory> {
        match self {
            AnyLists::Duplicate(lists) => lists.see(alloc, bytes),
            AnyLists::Edit(lists) => lists.see(alloc, bytes),
            AnyLists::Chop(lists) => lists.see(alloc, bytes),
            AnyLists::Split(lists) => lists.see(alloc, bytes),
            AnyLists::Join(lists) => lists.see(alloc, bytes),
        }
    }

    #[inline(always)]
    fn end(&mut self, alloc: Global) -> Result<(), NoMemory> {
        match self {
            AnyLists::Duplicate(lists) => lists.end(alloc),
            AnyLists::Edit(lists) => lists.end(alloc),
            AnyLists::Chop(lists) => lists.end(alloc),
            AnyLists::Split(lists) => lists.end(alloc),
            AnyLists::Join(lists) => lists.end(alloc),
        }
    }

    #[inline(always)]
    fn next(&mut self, alloc: Global) -> Result<Option<Group>, NoMemory> {
        match self {
            AnyLists::Duplicate(lists) => lists.next(alloc),
            AnyLists::Edit(lists) => lists.next(alloc),
            AnyLists::Chop(lists) => lists.next(alloc),
            AnyLists::Split(lists) => lists.next(alloc),
            AnyLists::Join(lists) => lists.next(alloc),
        }
    }

    #[inline(always)]
    fn hand_over(&mut self, alloc: Global) -> Result<Rec, NoMemory> {
        match self {
            AnyLists::Duplicate(lists) => lists.hand_over(alloc),
            AnyLists::Edit(lists) => lists.hand_over(alloc),
            AnyLists::Chop(lists) => lists.hand_over(alloc),
            AnyLists::Split(lists) => lists.hand_over(alloc),
            AnyLists::Join(lists) => lists.hand_over(alloc),
        }
    }

    // JOIN isn't asked, since it takes each record before it writes.
    #[inline(always)]
    fn is_spent(&self) -> bool {
        match self {
            AnyLists::Duplicate(lists) => lists.is_spent(),
            AnyLists::Edit(lists) => lists.is_spent(),
            AnyLists::Chop(lists) => lists.is_spent(),
            AnyLists::Split(lists) => lists.is_spent(),
            AnyLists::Join(lists) => lists.is_spent(),
        }
    }

    #[inline(always)]
    fn halts(&self) -> bool {
        false
    }

    #[inline(always)]
    fn stops(&self) -> bool {
        false
    }

    #[inline(always)]
    fn code(&self) -> i32 {
        0
    }

    fn looks(&self) -> bool {
        match self {
            AnyLists::Duplicate(_) => false,
            _ => true,
        }
    }
}
