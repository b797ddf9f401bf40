use crate::picks::Picks;
use crate::prefix::begins;
use pipe_model::{NoMemory, Rec};
use std::alloc::Global;

/// FRLABEL selects from the first record on that begins with its text. TOLABEL rejects these, and ends at the sight of
/// the first of them where it may.
#[derive(Drop)]
pub struct Meets {
    text: Rec,
    may_halt: bool,
    /// One of the records so far begins with the text.
    is_met: bool,
}

impl Meets {
    ghost use Rattle.std.specs.Prelude.{◌≡◌, ◌||◌, false, IfOk};
    ghost use Rattle.pipe_model.specs.Search.{begins};

    // This text, before the first record.
    pub(crate) fn new(alloc: Global, text: &Rec, may_halt: bool) -> Result<Meets, NoMemory>
        ensures { IfOk result (λ it. it ≡ record { text = text.now; may_halt = may_halt; is_met = false }) }
    {
        Ok(Meets {
            text: text.copy(alloc)?,
            may_halt,
            is_met: false,
        })
    }

    // Whether the text is met with one more record. Behind the first that begins with it none is looked at.
    #[inline(always)]
    fn meets(&self, rec: &[u8]) -> bool
        ensures { result ≡ (self.now.is_met || begins self.now.text rec.now) }
    {
        self.is_met || begins(self.text.bytes(), rec)
    }
}

impl Picks for Meets {
    ghost use Rattle.select_stages.specs.PickLists.{MeetsStand, meets_look};

    ghost stands = { MeetsStand };

    ghost is_looking = { meets_look };

    #[inline(always)]
    fn pick(&mut self, bytes: &[u8]) -> bool {
        self.is_met = self.meets(bytes);
        self.is_met
    }

    #[inline(always)]
    fn halts(&self) -> bool {
        self.may_halt && self.is_met
    }

    #[inline(always)]
    fn stops(&self) -> bool {
        false
    }

    fn looks(&self) -> bool {
        true
    }
}
