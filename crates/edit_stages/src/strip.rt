ghost use Rattle.std.specs.Prelude.{◌≡◌};
ghost use Rattle.pipe_model.specs.EditingRows.{front_stripped, back_stripped};

use crate::byte_set::ByteSet;
use crate::edits::Edits;
use pipe_model::{NoMemory, Rec};
use std::alloc::Global;

/// STRIP: the record without the bytes of a set at the ends named.
#[derive(Drop)]
pub struct Strips {
    leading: bool,
    trailing: bool,
    set: ByteSet,
}

// The record without the bytes of the set at its front.
pub(crate) fn front_stripped<'a>(set: &ByteSet, rec: &'a [u8]) -> &'a [u8]
    ensures { result.now ≡ front_stripped set.now rec.now }
{
    let mut at = 0;
    while at < rec.len() && set.has(rec[at]) {
        at += 1;
    }
    &rec[at..]
}

// The same at its back.
fn back_stripped<'a>(set: &ByteSet, rec: &'a [u8]) -> &'a [u8]
    ensures { result.now ≡ back_stripped set.now rec.now }
{
    let mut end = rec.len();
    while end > 0 && set.has(rec[end - 1]) {
        end -= 1;
    }
    &rec[..end]
}

impl Strips {
    ghost use Rattle.std.specs.Prelude.{◌≡◌, IfOk};
    ghost use Rattle.pipe_model.specs.EditingRows.{stripped};

    // STRIP of these ends and this set.
    pub(crate) fn new(
        alloc: Global,
        leading: bool,
        trailing: bool,
        set: &Rec,
    ) -> Result<Strips, NoMemory>
        ensures { IfOk result (λ it. it ≡ record { leading = leading; trailing = trailing; set = set.now }) }
    {
        Ok(Strips {
            leading,
            trailing,
            set: ByteSet::new(alloc, set)?,
        })
    }

    fn stripped<'a>(&self, rec: &'a [u8]) -> &'a [u8]
        ensures { result.now ≡ stripped self.now.leading self.now.trailing self.now.set rec.now }
    {
        let set = &self.set;
        let rec = if self.leading {
            front_stripped(set, rec)
        } else {
            rec
        };
        if self.trailing {
            back_stripped(set, rec)
        } else {
            rec
        }
    }
}

impl Edits for Strips {
    ghost use Rattle.pipe_model.specs.EditingRows.{stripped};

    ghost made = { λ x. stripped x.leading x.trailing x.set };

    fn edit(&self, alloc: Global, rec: &[u8]) -> Result<Option<Rec>, NoMemory> {
        let stripped = self.stripped(rec);
        if stripped.len() == rec.len() {
            Ok(None)
        } else {
            Ok(Some(Rec::from_slice(alloc, stripped)?))
        }
    }
}
