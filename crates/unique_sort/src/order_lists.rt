ghost use Rattle.std.specs.Prelude.{◌≡◌};

use crate::count::Counts;
use crate::sort::Sorts;
use crate::unique::{Firsts, Holds};
use pipe_model::{Keep, Kind, NoMemory, Rec};
use stage_steps::{Each, Group, Lists, Order, Sifted};
use std::alloc::Global;

/// The lists of UNIQUE, SORT or COUNT. They are one type to the driver, so that a further stage adds no driver to the loop
/// that runs them.
#[derive(Drop)]
pub enum OrderLists {
    /// UNIQUE FIRST.
    First(Each<Firsts>),
    /// UNIQUE LAST, SINGLES or MULTIPLE.
    Hold(Holds),
    Sort(Sorts),
    Count(Counts),
}

impl OrderLists {
    ghost use Rattle.std.specs.Prelude.{◌≡◌, true, IfOk};
    ghost use Rattle.unique_sort.specs.OrderLists.{lists_order, AreListsOf};
    ghost use Rattle.unique_sort.specs.OrderStage.{is_order};

    // The lists of a kind, before the first record.
    pub(crate) fn new(alloc: Global, kind: &Kind) -> Result<OrderLists, NoMemory>
        requires { is_order kind.now ≡ true }
        ensures { IfOk result (λ lists. AreListsOf kind.now lists) }
    {
        match kind {
            Kind::Unique { count, range, keep } => match *keep {
                Keep::First => Ok(OrderLists::First(Firsts::lists(alloc, *range))),
                other => Ok(OrderLists::Hold(Holds::new(alloc, *count, *range, other))),
            },
            Kind::Sort(keys) => Ok(OrderLists::Sort(Sorts::new(alloc, keys)?)),
            Kind::Count(totals) => Ok(OrderLists::Count(Counts::new(alloc, totals)?)),
            _ => unreachable!(),
        }
    }

    // Only UNIQUE FIRST writes a record before it takes it.
    pub(crate) fn order(&self) -> Order
        ensures { result ≡ lists_order self.now }
    {
        match self {
            OrderLists::First(_) => Order::WritesFirst,
            _ => Order::TakesFirst,
        }
    }
}

impl Lists for OrderLists {
    ghost use Rattle.unique_sort.specs.OrderLists.{OrderListsStand, order_lists_look, lists_made, lists_left};

    ghost stands = { OrderListsStand };

    ghost is_looking = { order_lists_look };

    ghost made = { lists_made };

    ghost left = { lists_left };

    fn begin(&mut self) {
        match self {
            OrderLists::First(lists) => lists.begin(),
            OrderLists::Hold(lists) => lists.begin(),
            OrderLists::Sort(lists) => lists.begin(),
            OrderLists::Count(lists) => lists.begin(),
        }
    }

    #[inline(always)]
    fn see(&mut self, alloc: Global, bytes: &[u8]) -> Result<(), NoMemory> {
        match self {
            OrderLists::First(lists) => lists.see(alloc, bytes),
            OrderLists::Hold(lists) => lists.see(alloc, bytes),
            OrderLists::Sort(lists) => lists.see(alloc, bytes),
            OrderLists::Count(lists) => lists.see(alloc, bytes),
        }
    }

    // The others take each record before they write.
    #[inline(always)]
    fn sift(&mut self, alloc: Global, bytes: &[u8]) -> Result<Sifted, NoMemory> {
        match self {
            OrderLists::First(lists) => lists.sift(alloc, bytes),
            _ => {
                self.see(alloc, bytes)?;
                Ok(Sifted::Gives)
            }
        }
    }

    fn end(&mut self, alloc: Global) -> Result<(), NoMemory> {
        match self {
            OrderLists::First(lists) => lists.end(alloc),
            OrderLists::Hold(lists) => lists.end(alloc),
            OrderLists::Sort(lists) => lists.end(alloc),
            OrderLists::Count(lists) => lists.end(alloc),
        }
    }

    #[inline(always)]
    fn next(&mut self, alloc: Global) -> Result<Option<Group>, NoMemory> {
        match self {
            OrderLists::First(lists) => lists.next(alloc),
            OrderLists::Hold(lists) => lists.next(alloc),
            OrderLists::Sort(lists) => lists.next(alloc),
            OrderLists::Count(lists) => lists.next(alloc),
        }
    }

    fn hand_over(&mut self, alloc: Global) -> Result<Rec, NoMemory> {
        match self {
            OrderLists::First(lists) => lists.hand_over(alloc),
            OrderLists::Hold(lists) => lists.hand_over(alloc),
            OrderLists::Sort(lists) => lists.hand_over(alloc),
            OrderLists::Count(lists) => lists.hand_over(alloc),
        }
    }

    #[inline(always)]
    fn is_spent(&self) -> bool {
        match self {
            OrderLists::First(lists) => lists.is_spent(),
            OrderLists::Hold(lists) => lists.is_spent(),
            OrderLists::Sort(lists) => lists.is_spent(),
            OrderLists::Count(lists) => lists.is_spent(),
        }
    }

    #[inline(always)]
    fn only_output(&self) -> Option<u16> {
        match self {
            OrderLists::Hold(lists) => lists.only_output(),
            _ => None,
        }
    }

    #[inline(always)]
    fn halts(&self) -> bool {
        false
    }

    #[inline(always)]
    fn stops(&self) -> bool {
        false
    }

    #[inline(always)]
    fn code(&self) -> i32 {
        0
    }

    // All of them compare or count.
    fn looks(&self) -> bool {
        true
    }
}
