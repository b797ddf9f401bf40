use crate::each::{Each, EachRecord};
use crate::group::Group;
use crate::sifted::Sifted;
use crate::waiting::take_waiting;
use pipe_model::{NoMemory, Rec};
use std::alloc::Global;

/// Each record goes on output 0.
#[derive(Drop)]
pub struct Copies {
    is_looking: bool,
    /// The output on which the record at hand is still to be written.
    waiting: Option<u16>,
}

impl Copies {
    ghost use Rattle.std.specs.Prelude.{◌≡◌};
    ghost use Rattle.stage_steps.specs.SharedLists.{fresh_copies};

    /// Before the first record. CONSOLE looks at records, and stages that only pass them on don't.
    pub fn lists(is_looking: bool) -> Each<Copies>
        ensures { result ≡ fresh_copies is_looking }
    {
        Each {
            each: Copies {
                is_looking,
                waiting: None,
            },
        }
    }
}

impl EachRecord for Copies {
    ghost use Rattle.stage_steps.specs.SharedLists.{CopiesStand, copies_look};
    ghost use Rattle.stage_steps.specs.Waiting.{how_many};

    ghost stands = { CopiesStand };

    ghost is_looking = { copies_look };

    ghost left = { λ x. how_many x.waiting };

    #[inline(always)]
    fn see(&mut self, _alloc: Global, _bytes: &[u8]) -> Result<(), NoMemory> {
        self.waiting = Some(0);
        Ok(())
    }

    #[inline(always)]
    fn sift(&mut self, _alloc: Global, _bytes: &[u8]) -> Result<Sifted, NoMemory> {
        self.waiting = None;
        Ok(Sifted::Passes(0))
    }

    #[inline(always)]
    fn next(&mut self) -> Option<Group> {
        take_waiting(&mut self.waiting)
    }

    fn hand_over(&mut self, alloc: Global) -> Result<Rec, NoMemory> {
        Ok(Rec::from_vec(Vec::new(alloc)))
    }

    #[inline(always)]
    fn is_spent(&self) -> bool {
        self.waiting.is_none()
    }

    fn looks(&self) -> bool {
        self.is_looking
    }
}
