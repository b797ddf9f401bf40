use crate::change::Changes;
use crate::edits::Edits;
use crate::pad::Pads;
use crate::reverse::Reverses;
use crate::strip::Strips;
use crate::xlate::Xlates;
use pipe_model::{NoMemory, Rec};
use std::alloc::Global;

/// One of the stages that make one record of each.
#[derive(Drop)]
pub enum AnyEdit {
    Reverse(Reverses),
    Strip(Strips),
    Xlate(Xlates),
    Pad(Pads),
    Change(Changes),
}

impl Edits for AnyEdit {
    ghost use Rattle.edit_stages.specs.AnyEdit.{any_made};

    ghost made = { any_made };

    fn edit(&self, alloc: Global, rec: &[u8]) -> Result<Option<Rec>, NoMemory> {
        match self {
            AnyEdit::Reverse(edits) => edits.edit(alloc, rec),
            AnyEdit::Strip(edits) => edits.edit(alloc, rec),
            AnyEdit::Xlate(edits) => edits.edit(alloc, rec),
            AnyEdit::Pad(edits) => edits.edit(alloc, rec),
            AnyEdit::Change(edits) => edits.edit(alloc, rec),
        }
    }
}
