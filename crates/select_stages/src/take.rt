ghost use Rattle.std.specs.Prelude.{◌≡◌};
ghost use Rattle.stage_steps.specs.Group.{has_more};
ghost use Rattle.select_stages.specs.Choices.{one_less};

use crate::picks::Picks;
use pipe_model::Times;

/// TAKE FIRST selects the first records, without a look at them, and stops behind them where it may. DROP FIRST rejects
/// them.
#[derive(Drop)]
pub struct Takes {
    /// How many of the first ones are still to come.
    left: Times,
    may_stop: bool,
}

impl Takes {
    ghost use Rattle.std.specs.Prelude.{◌≡◌};

    // Before the first record.
    pub(crate) fn new(times: Times, may_stop: bool) -> Takes
        ensures { result ≡ record { left = times; may_stop = may_stop } }
    {
        Takes {
            left: times,
            may_stop,
        }
    }
}

// Whether any is left of so many.
#[inline(always)]
fn has_more(times: Times) -> bool
    ensures { result ≡ has_more times }
{
    match times {
        Times::Only(n) => n != 0,
        Times::All => true,
    }
}

// One less of so many, if any is left.
#[inline(always)]
fn one_less(times: Times) -> Times
    ensures { result ≡ one_less times }
{
    match times {
        Times::Only(n) => Times::Only(n.saturating_sub(1)),
        Times::All => Times::All,
    }
}

impl Picks for Takes {
    ghost use Rattle.select_stages.specs.PickLists.{TakesStand, takes_look};

    ghost stands = { TakesStand };

    ghost is_looking = { takes_look };

    #[inline(always)]
    fn pick(&mut self, _bytes: &[u8]) -> bool {
        let is_first = has_more(self.left);
        self.left = one_less(self.left);
        is_first
    }

    #[inline(always)]
    fn halts(&self) -> bool {
        false
    }

    #[inline(always)]
    fn stops(&self) -> bool {
        self.may_stop && !has_more(self.left)
    }

    fn looks(&self) -> bool {
        false
    }
}
