ghost use Rattle.std.specs.Prelude.{◌≡◌};
ghost use Rattle.pipe_model.specs.SelectionRows.{byte_agrees, agrees};

use crate::picks::Picks;
use pipe_model::{NoMemory, Rec};
use std::alloc::Global;

/// FIND selects the records that agree with its text.
#[derive(Drop)]
pub struct Finds {
    text: Rec,
}

impl Finds {
    ghost use Rattle.std.specs.Prelude.{◌≡◌, IfOk};

    // FIND of this text.
    pub(crate) fn new(alloc: Global, text: &Rec) -> Result<Finds, NoMemory>
        ensures { IfOk result (λ it. it ≡ record { text = text.now }) }
    {
        Ok(Finds {
            text: text.copy(alloc)?,
        })
    }
}

// Whether a byte of the text agrees with one of the record.
#[inline(always)]
fn byte_agrees(wanted: u8, byte: u8) -> bool
    ensures { result ≡ byte_agrees wanted byte }
{
    match wanted {
        b' ' => true,
        b'_' => byte == b' ',
        _ => byte == wanted,
    }
}

// Whether each byte of the text agrees with the record at its place, and a blank with none too. It is a call of its own,
// so that the loop that runs all stages stays short.
#[inline(never)]
fn agrees(text: &[u8], rec: &[u8]) -> bool
    ensures { result ≡ agrees text.now rec.now }
{
    for (k, wanted) in text.iter().enumerate() {
        if k < rec.len() {
            if !byte_agrees(*wanted, rec[k]) {
                return false;
            }
        } else if *wanted != b' ' {
            return false;
        }
    }
    true
}

impl Picks for Finds {
    ghost use Rattle.select_stages.specs.PickLists.{FindsStand, finds_look};

    ghost stands = { FindsStand };

    ghost is_looking = { finds_look };

    #[inline(always)]
    fn pick(&mut self, bytes: &[u8]) -> bool {
        agrees(self.text.bytes(), bytes)
    }

    #[inline(always)]
    fn halts(&self) -> bool {
        false
    }

    #[inline(always)]
    fn stops(&self) -> bool {
        false
    }

    fn looks(&self) -> bool {
        true
    }
}
