ghost use Rattle.std.specs.Prelude.{◌≡◌, IfOk};
ghost use Rattle.pipe_model.specs.EditingRows.{mapped, translated};
ghost use Rattle.edit_stages.specs.Tables.{IsTable};

use crate::edits::Edits;
use pipe_model::{Mapping, NoMemory, Rec};
use std::alloc::Global;
use std::marker::Model;

/// XLATE, seen as its mapping: what becomes of each byte stands in a table.
#[derive(Drop)]
pub struct Xlates {
    mapping: Mapping,
    table: Vec<u8>,
}

impl Model for Xlates {
    ghost use Rattle.pipe_model.specs.declared.kind.Mapping.{Mapping};
    ghost use Rattle.pipe_model.specs.EditingRows.{translated};
    ghost use Rattle.edit_stages.specs.Tables.{IsTable};

    ghost Value = { Mapping };

    ghost view = { λ x. x.mapping };

    ghost invariant = { λ x. IsTable (translated x.mapping) x.table.items };
}

// The byte at its first place in the one string becomes the byte at that place in the other.
fn mapped(first: &[u8], second: &[u8], byte: u8) -> u8
    ensures { result ≡ mapped first.now second.now byte }
{
    let mut at = 0;
    while at < first.len() && at < second.len() {
        if first[at] == byte {
            return second[at];
        }
        at += 1;
    }
    byte
}

// What becomes of a byte.
fn translated(mapping: &Mapping, byte: u8) -> u8
    ensures { result ≡ translated mapping.now byte }
{
    match mapping {
        Mapping::Upper => if byte >= b'a' && byte <= b'z' {
            byte - 32
        } else {
            byte
        },
        Mapping::Lower => if byte >= b'A' && byte <= b'Z' {
            byte + 32
        } else {
            byte
        },
        Mapping::Bytes(first, second) => mapped(first.bytes(), second.bytes(), byte),
    }
}

// What becomes of each byte.
fn table(alloc: Global, mapping: &Mapping) -> Result<Vec<u8>, NoMemory>
    ensures { IfOk result (λ table. IsTable (translated mapping.now) table.items) }
{
    let mut table = Vec::new(alloc);
    for byte in 0..256u32 {
        table.push(translated(mapping, byte as u8))?;
    }
    Ok(table)
}

// The mapping once more.
fn copy(alloc: Global, mapping: &Mapping) -> Result<Mapping, NoMemory>
    ensures { IfOk result (λ it. it ≡ mapping.now) }
{
    match mapping {
        Mapping::Upper => Ok(Mapping::Upper),
        Mapping::Lower => Ok(Mapping::Lower),
        Mapping::Bytes(first, second) => {
            let first = first.copy(alloc)?;
            let second = second.copy(alloc)?;
            Ok(Mapping::Bytes(first, second))
        }
    }
}

impl Xlates {
    // XLATE by this mapping.
    pub(crate) fn new(alloc: Global, mapping: &Mapping) -> Result<Xlates, NoMemory>
        ensures { IfOk result (λ it. it ≡ mapping.now) }
    {
        let table = table(alloc, mapping)?;
        let mapping = copy(alloc, mapping)?;
        Ok(Xlates { mapping, table })
    }

    #[inline(always)]
    fn of_byte(&self, byte: u8) -> u8
        ensures { result ≡ translated self.now byte }
    {
        self.table[byte as usize]
    }
}

impl Edits for Xlates {
    ghost use Rattle.std.specs.Prelude.{map};
    ghost use Rattle.pipe_model.specs.EditingRows.{translated};

    ghost made = { λ x. map (translated x) };

    fn edit(&self, alloc: Global, rec: &[u8]) -> Result<Option<Rec>, NoMemory> {
        let mut bytes = Vec::from_slice(alloc, rec)?;
        for byte in bytes.iter_mut() {
            *byte = self.of_byte(*byte);
        }
        Ok(Some(Rec::from_vec(bytes)))
    }
}
