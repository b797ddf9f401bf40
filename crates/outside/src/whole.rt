ghost use Rattle.std.specs.Prelude.{◌≡◌, ◌≤◌, length, IfOk, OnOk, vec_len};
ghost use Rattle.std.specs.Io.KnownBytes.{Consumes, IsAtEnd, Appends};
ghost use Rattle.outside.specs.Folder.{file_limit};

use crate::fault::Fault;
use crate::sink::{Sink, WriteAnswer};
use crate::source::{ReadAnswer, Source};
use std::alloc::Global;

/// The most bytes of a file that is fetched, so that the reading of an endless one ends.
const FILE_LIMIT: usize = 1_073_741_824;

/// How many bytes a read asks for.
const ROOM: usize = 65_536;

// Reads the source to its end. Memory for as many bytes as are expected is taken before the first read.
pub(crate) fn read_whole<S: Source>(
    alloc: Global,
    source: &mut S,
    expected: u64,
) -> Result<Vec<u8>, Fault>
    ensures fits { IfOk result (λ bytes. length bytes.items ≤ file_limit) }
    ensures bytes { IfOk result (λ bytes. Consumes (S.left source.old) (S.left source.new) bytes.items) }
    ensures end { OnOk result (IsAtEnd (S.left source.new)) }
{
    let mut bytes = Vec::with_capacity(alloc, expected.min(FILE_LIMIT as u64) as usize)?;
    let mut room = zeroed(alloc, ROOM)?;
    loop {
        match source.read(&mut room) {
            ReadAnswer::End => return Ok(bytes),
            ReadAnswer::Failed => return Err(Fault::Device),
            ReadAnswer::Bytes(count) => {
                if count > FILE_LIMIT - bytes.len() {
                    return Err(Fault::Device);
                }
                bytes.extend_from_slice(&room[..count])?;
            }
        }
    }
}

// This many bytes, all 0.
fn zeroed(alloc: Global, len: usize) -> Result<Vec<u8>, Fault>
    ensures { IfOk result (λ bytes. vec_len bytes ≡ len) }
{
    Ok(vec![in alloc; 0u8; len]?)
}

// Writes the bytes to their end, piece by piece.
pub(crate) fn write_whole<S: Sink>(sink: &mut S, bytes: &[u8]) -> Result<(), Fault>
    ensures { OnOk result (Appends (S.written sink.old) (S.written sink.new) bytes.now) }
{
    let mut at = 0;
    while at < bytes.len() {
        match sink.write(&bytes[at..]) {
            WriteAnswer::Took(count) => at += count,
            WriteAnswer::Failed => return Err(Fault::Device),
        }
    }
    Ok(())
}
