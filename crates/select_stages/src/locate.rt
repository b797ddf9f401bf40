ghost use Rattle.std.specs.Prelude.{◌≡◌, true, IfOk};
ghost use Rattle.select_stages.specs.Located.{IsWhole};

use crate::picks::Picks;
use pipe_model::{NoMemory, Range, Rec, Span};
use stage_steps::{Sought, part_of};
use std::alloc::Global;
use std::marker::Model;

// The string of an argument that may be there.
fn sought(alloc: Global, text: &Option<Rec>) -> Result<Option<Sought>, NoMemory>
    ensures { IfOk result (λ sought. sought ≡ text.now) }
{
    match text {
        None => Ok(None),
        Some(text) => Ok(Some(Sought::new(text.copy(alloc)?))),
    }
}

// Whether a range is all of a record.
fn is_whole(range: Range) -> bool
    ensures { result ≡ true → IsWhole range }
{
    matches!(range.span, Span::Columns) && range.first <= 1 && range.last.is_none()
}

/// LOCATE selects the records in whose range the string stands, and without a string those whose range isn't empty.
#[derive(Drop)]
pub struct Locates {
    range: Range,
    /// The range is all of a record, as it mostly is: nothing needs to be cut out then.
    is_whole: bool,
    sought: Option<Sought>,
}

impl Model for Locates {
    ghost use Rattle.std.specs.Prelude.{◌≡◌, true};
    ghost use Rattle.select_stages.specs.Located.{LocatesState, IsWhole};

    ghost Value = { LocatesState };

    ghost view = { λ it. record { range = it.range; sought = it.sought } };

    ghost invariant = { λ it. it.is_whole ≡ true → IsWhole it.range };
}

impl Locates {
    ghost use Rattle.std.specs.Prelude.{◌≡◌, IfOk};
    ghost use Rattle.pipe_model.specs.Ranges.{locates, part_of};

    // LOCATE of this range and this string.
    pub(crate) fn new(alloc: Global, range: Range, text: &Option<Rec>) -> Result<Locates, NoMemory>
        ensures { IfOk result (λ it. it ≡ record { range = range; sought = text.now }) }
    {
        Ok(Locates {
            range,
            is_whole: is_whole(range),
            sought: sought(alloc, text)?,
        })
    }

    // The range of a record.
    #[inline(always)]
    #[tactic(auto, using(crate::proofs::Whole::whole_part))]
    fn part<'a>(&self, rec: &'a [u8]) -> &'a [u8]
        ensures { result.now ≡ part_of self.now.range rec.now }
    {
        if self.is_whole {
            rec
        } else {
            part_of(self.range, rec)
        }
    }

    // Whether the string stands in the range of a record, or without a string whether that isn't empty.
    #[inline(always)]
    fn locates(&self, rec: &[u8]) -> bool
        ensures { result ≡ locates self.now.range self.now.sought rec.now }
    {
        let part = self.part(rec);
        match &self.sought {
            None => !part.is_empty(),
            Some(sought) => sought.is_in(part),
        }
    }
}

impl Picks for Locates {
    ghost use Rattle.select_stages.specs.PickLists.{LocatesStand, locates_look};

    ghost stands = { LocatesStand };

    ghost is_looking = { locates_look };

    #[inline(always)]
    fn pick(&mut self, bytes: &[u8]) -> bool {
        self.locates(bytes)
    }

    #[inline(always)]
    fn awaits(&self) -> Option<&Sought> {
        self.sought.as_ref()
    }

    #[inline(always)]
    fn halts(&self) -> bool {
        false
    }

    #[inline(always)]
    fn stops(&self) -> bool {
        false
    }

    fn looks(&self) -> bool {
        true
    }
}
