use crate::edits::Edits;
use pipe_model::{NoMemory, Rec};
use std::alloc::Global;

/// REVERSE: the bytes of the record from the last to the first.
#[derive(Drop)]
pub struct Reverses;

impl Edits for Reverses {
    ghost use Rattle.std.specs.Prelude.{reverse};

    ghost made = { λ _. reverse };

    #[inline(always)]
    fn edit(&self, alloc: Global, rec: &[u8]) -> Result<Option<Rec>, NoMemory> {
        let mut bytes = Vec::from_slice(alloc, rec)?;
        bytes.reverse();
        Ok(Some(Rec::from_vec(bytes)))
    }
}
