ghost use Rattle.std.specs.Prelude.{◌≡◌};
ghost use Rattle.select_stages.specs.Choices.{is_enclosed};

use crate::picks::Picks;
use crate::prefix::begins;
use pipe_model::{NoMemory, Rec};
use std::alloc::Global;

/// BETWEEN selects from a record that begins with the first string to the next later one that begins with the second,
/// again and again. INSIDE selects the same without these outer records.
#[derive(Drop)]
pub struct Encloses {
    first: Rec,
    second: Rec,
    /// The outer records are selected too.
    outer: bool,
    /// A part is open behind the records so far.
    is_open: bool,
}

impl Encloses {
    ghost use Rattle.std.specs.Prelude.{◌≡◌, false, IfOk};
    ghost use Rattle.pipe_model.specs.SelectionRows.{opens};

    // These strings, before the first record.
    pub(crate) fn new(
        alloc: Global,
        first: &Rec,
        second: &Rec,
        outer: bool,
    ) -> Result<Encloses, NoMemory>
        ensures { IfOk result (λ it. it ≡ record { first = first.now; second = second.now; outer = outer; is_open = false }) }
    {
        Ok(Encloses {
            first: first.copy(alloc)?,
            second: second.copy(alloc)?,
            outer,
            is_open: false,
        })
    }

    // Whether a part is open behind one more record.
    #[inline(always)]
    fn opens(&self, rec: &[u8]) -> bool
        ensures { result ≡ opens self.now.first self.now.second self.now.is_open rec.now }
    {
        if self.is_open {
            !begins(self.second.bytes(), rec)
        } else {
            begins(self.first.bytes(), rec)
        }
    }
}

// Whether a record is selected, before and behind which a part is open or isn't.
#[inline(always)]
fn is_enclosed(outer: bool, before: bool, behind: bool) -> bool
    ensures { result ≡ is_enclosed outer before behind }
{
    if outer {
        before || behind
    } else {
        before && behind
    }
}

impl Picks for Encloses {
    ghost use Rattle.select_stages.specs.PickLists.{EnclosesStand, encloses_look};

    ghost stands = { EnclosesStand };

    ghost is_looking = { encloses_look };

    #[inline(always)]
    fn pick(&mut self, bytes: &[u8]) -> bool {
        let before = self.is_open;
        self.is_open = self.opens(bytes);
        is_enclosed(self.outer, before, self.is_open)
    }

    #[inline(always)]
    fn halts(&self) -> bool {
        false
    }

    #[inline(always)]
    fn stops(&self) -> bool {
        false
    }

    fn looks(&self) -> bool {
        true
    }
}
