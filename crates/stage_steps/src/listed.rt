use crate::kept::{kept_if, note_kept, note_seen};
use crate::lists::Lists;
use crate::order::Order;
use crate::outputs::Outputs;
use crate::place::Place;
use crate::reply::Reply;
use crate::stage::Stage;
use crate::strings::Sought;
use crate::walk::{Walk, ask, hear, looks_plainly, passes, reply, sift, takes_plainly};
use pipe_model::{NoMemory, Seen, Want};
use std::alloc::Global;

/// The driver of the stages that are made of lists of pairs: it reads input 0, writes the pairs of each record before it
/// takes the record or after that, and those at the start and at the end of input.
#[derive(Drop)]
pub struct Listed<L: Lists> {
    pub(crate) lists: L,
    pub(crate) walk: Walk,
}

impl<L: Lists> Listed<L> {
    ghost use Rattle.std.specs.Prelude.{◌≡◌, IfOk};
    ghost use Rattle.stage_steps.specs.Drivers.{IsFresh};

    /// A fresh driver of these lists, with these connected outputs. Where it keeps the text of the records that it takes,
    /// refusals don't end it.
    pub fn new(
        alloc: Global,
        lists: L,
        order: Order,
        outputs: &[bool],
        keeps: bool,
    ) -> Result<Listed<L>, NoMemory>
        ensures { IfOk result (λ it. IsFresh L.stands L.is_looking lists order outputs.now keeps it) }
    {
        Ok(Listed {
            lists,
            walk: Walk {
                order,
                place: Place::Starting,
                hand: None,
                outputs: Outputs::new(alloc, outputs)?,
                kept: kept_if(alloc, keeps),
            },
        })
    }
}

impl<L: Lists> Stage for Listed<L> {
    ghost use Rattle.std.specs.Prelude.{IfOk};
    ghost use Rattle.stage_steps.specs.Coroutine.{Resumes};
    ghost use Rattle.stage_steps.specs.Drivers.{ListedStands};

    ghost stands = { λ x s h. ListedStands L.stands L.is_looking x s h };

    fn first(&self) -> Want {
        Want::Commit(-1)
    }

    // It may be told any event; what isn't answered ends it.
    #[inline(always)]
    fn resume(&mut self, alloc: Global, seen: Seen, bytes: &[u8]) -> Result<Want, NoMemory>
        ensures { IfOk result (λ asked. Resumes (λ x s h. ListedStands L.stands L.is_looking x s h) self.old self.new seen bytes.now asked) }
    {
        note_kept(&mut self.walk.kept, seen, bytes)?;
        self.walk.outputs.note(seen);
        let place = hear(&mut self.lists, &self.walk, alloc, seen, bytes)?;
        ask(&mut self.lists, &mut self.walk, place, alloc)
    }

    #[inline(never)]
    fn see(&mut self, alloc: Global, bytes: &[u8], asked: &mut Want) -> Result<Reply, NoMemory> {
        if !looks_plainly(&self.walk) {
            let want = self.resume(alloc, Seen::Saw(0), bytes)?;
            return Ok(reply(&self.lists, &mut self.walk, want, asked));
        }
        note_seen(&mut self.walk.kept, bytes)?;
        sift(&mut self.lists, &mut self.walk, alloc, bytes, asked)
    }

    #[inline(always)]
    fn awaits(&self) -> Option<&Sought> {
        if takes_plainly(&self.walk, 1) {
            self.lists.awaits()
        } else {
            None
        }
    }

    #[inline(always)]
    fn passes(&mut self) -> bool {
        passes(&self.lists, &mut self.walk)
    }

    fn looks(&self) -> bool {
        self.lists.looks()
    }

    fn kept(&self) -> &[u8] {
        match &self.walk.kept {
            Some(kept) => kept.text(),
            None => &[],
        }
    }

    fn shown(&self) -> &[u8] {
        &[]
    }

    fn text_ahead(&self) -> &[u8] {
        &[]
    }
}
