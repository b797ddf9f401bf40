use crate::edits::Edits;
use pipe_model::{NoMemory, Rec};
use std::alloc::Global;

/// PAD: the record, filled on a side to so many bytes.
#[derive(Drop)]
pub struct Pads {
    pub(crate) left: bool,
    pub(crate) width: u32,
    pub(crate) fill: u8,
}

impl Edits for Pads {
    ghost use Rattle.pipe_model.specs.EditingRows.{padded};

    ghost made = { λ x. padded x.left x.width x.fill };

    fn edit(&self, alloc: Global, rec: &[u8]) -> Result<Option<Rec>, NoMemory> {
        let width = self.width as usize;
        if rec.len() >= width {
            return Ok(None);
        }
        let mut bytes = Vec::with_capacity(alloc, width)?;
        if self.left {
            bytes.resize(width - rec.len(), self.fill)?;
            bytes.extend_from_slice(rec)?;
        } else {
            bytes.extend_from_slice(rec)?;
            bytes.resize(width, self.fill)?;
        }
        Ok(Some(Rec::from_vec(bytes)))
    }
}
