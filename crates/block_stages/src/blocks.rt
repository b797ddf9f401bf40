use crate::cuts::Cuts;
use crate::images::{add_image, is_too_long};
use crate::pending::{fill_rest, without_front};
use pipe_model::{Image, NoMemory, Rec, behind, front};
use stage_steps::{Group, Lists};
use std::alloc::Global;

/// What is left behind the records that are complete.
#[derive(Clone, Copy)]
pub(crate) enum Rest {
    /// More may come behind it.
    Growing,
    /// Input has ended, and it is the last record.
    Due,
    /// Input has ended, and nothing is to be given.
    Nothing,
}

/// FBLOCK, BLOCK and DEBLOCK: what stands for the records, one after another, is cut anew. A record is made when it is
/// asked for.
#[derive(Drop)]
pub struct Blocks {
    image: Image,
    cuts: Cuts,
    /// What came, but for what was dropped at the front.
    text: Vec<u8>,
    /// Where what is still to be given begins.
    at: usize,
    /// How many places from there on were searched without a record being found.
    searched: usize,
    /// Where the record begins that was given last, and how many bytes it has.
    from: usize,
    size: usize,
    rest: Rest,
    /// The record at hand has no image.
    is_too_long: bool,
}

impl Blocks {
    ghost use Rattle.std.specs.Prelude.{[], false};
    ghost use Rattle.pipe_model.specs.Shape.{Stream};
    ghost use Rattle.block_stages.specs.Blocks.{IsStreamOf, BlocksStand};

    // What stands so for the records, cut so, before the first.
    pub(crate) fn new(alloc: Global, image: Image, cuts: Cuts) -> Blocks
        ensures { (t : Stream) → IsStreamOf image cuts t → BlocksStand result false t [] [] }
    {
        Blocks {
            image,
            cuts,
            text: Vec::new(alloc),
            at: 0,
            searched: 0,
            from: 0,
            size: 0,
            rest: Rest::Growing,
            is_too_long: false,
        }
    }
}

impl Lists for Blocks {
    ghost use Rattle.block_stages.specs.Blocks.{BlocksStand, blocks_look, block_given, blocks_left};

    ghost stands = { BlocksStand };

    ghost is_looking = { blocks_look };

    ghost made = { block_given };

    ghost left = { blocks_left };

    fn begin(&mut self) {}

    #[inline(never)]
    fn see(&mut self, _alloc: Global, bytes: &[u8]) -> Result<(), NoMemory> {
        self.at = without_front(&mut self.text, self.at);
        self.is_too_long = is_too_long(&self.image, bytes);
        add_image(&self.image, &mut self.text, bytes)
    }

    #[inline(never)]
    fn end(&mut self, _alloc: Global) -> Result<(), NoMemory> {
        self.rest = Rest::Nothing;
        if self.text.as_slice().len() <= self.at {
            return Ok(());
        }
        match &self.cuts {
            Cuts::Every { size, fill } => {
                fill_rest(&mut self.text, self.at, *size, *fill)?;
                self.rest = Rest::Due;
            }
            Cuts::At(_) => self.rest = Rest::Due,
            Cuts::ByLengths => {}
        }
        Ok(())
    }

    #[inline(never)]
    fn next(&mut self, _alloc: Global) -> Result<Option<Group>, NoMemory> {
        match self.rest {
            Rest::Growing => {}
            Rest::Due => {
                self.rest = Rest::Nothing;
                self.from = self.at;
                self.size = self.text.len().saturating_sub(self.at);
                return Ok(Some(Group::New(0)));
            }
            Rest::Nothing => return Ok(None),
        }
        let pending = behind(&self.text, self.at);
        match self.cuts.first(pending, self.searched) {
            Some(cut) => {
                self.from = self.at + cut.from;
                self.size = cut.size;
                self.at += cut.next;
                self.searched = 0;
                Ok(Some(Group::New(0)))
            }
            None => {
                self.searched = self.cuts.searched_in(pending);
                Ok(None)
            }
        }
    }

    fn hand_over(&mut self, alloc: Global) -> Result<Rec, NoMemory> {
        Rec::from_slice(alloc, front(behind(&self.text, self.from), self.size))
    }

    // A record that is cut elsewhere than by its length is searched for when it is asked for, and not twice.
    #[inline(always)]
    fn is_spent(&self) -> bool {
        match self.rest {
            Rest::Growing => !self.stops() && self.cuts.is_short(behind(&self.text, self.at)),
            Rest::Due | Rest::Nothing => false,
        }
    }

    #[inline(always)]
    fn halts(&self) -> bool {
        false
    }

    #[inline(always)]
    fn stops(&self) -> bool {
        self.is_too_long || self.cuts.stops_at(behind(&self.text, self.at))
    }

    fn code(&self) -> i32 {
        if self.is_too_long {
            8
        } else {
            self.cuts.code_at(behind(&self.text, self.at))
        }
    }

    fn looks(&self) -> bool {
        true
    }
}
