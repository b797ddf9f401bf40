ghost use Rattle.std.specs.Prelude.{◌≡◌, IfOk};
ghost use Rattle.pipe_model.specs.Members.{has};
ghost use Rattle.edit_stages.specs.Tables.{IsTable};

use pipe_model::{NoMemory, Rec};
use std::alloc::Global;
use std::marker::Model;

/// A set of bytes, seen as the list that names them, with a table that says of each byte whether the set has it.
#[derive(Drop)]
pub(crate) struct ByteSet {
    bytes: Rec,
    table: Vec<bool>,
}

impl Model for ByteSet {
    ghost use Rattle.std.specs.Prelude.{ℕ, List};
    ghost use Rattle.pipe_model.specs.Members.{has};
    ghost use Rattle.edit_stages.specs.Tables.{IsTable};

    ghost Value = { List ℕ };

    ghost view = { λ set. set.bytes };

    ghost invariant = { λ set. IsTable (has set.bytes) set.table.items };
}

// For each byte, whether these have it.
fn table(alloc: Global, bytes: &[u8]) -> Result<Vec<bool>, NoMemory>
    ensures { IfOk result (λ table. IsTable (has bytes.now) table.items) }
{
    let mut table = Vec::new(alloc);
    for byte in 0..256u32 {
        table.push(bytes.contains(&(byte as u8)))?;
    }
    Ok(table)
}

impl ByteSet {
    // The set of these bytes.
    pub(crate) fn new(alloc: Global, bytes: &Rec) -> Result<ByteSet, NoMemory>
        ensures { IfOk result (λ set. set ≡ bytes.now) }
    {
        let table = table(alloc, bytes.bytes())?;
        Ok(ByteSet {
            bytes: bytes.copy(alloc)?,
            table,
        })
    }

    // Whether it has this byte.
    #[inline(always)]
    pub(crate) fn has(&self, byte: u8) -> bool
        ensures { result ≡ has self.now byte }
    {
        self.table[byte as usize]
    }
}
