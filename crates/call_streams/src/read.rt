ghost use Rattle.std.specs.Prelude.{◌≡◌, IfOk, MatchResult, vec_len};
ghost use Rattle.outside.specs.Device.{device};
ghost use Rattle.call_streams.specs.Taken.{IsWhole, IsPart};

use call_meaning::Outcome;
use outside::{ReadAnswer, Source};
use pipe_model::NoMemory;
use std::alloc::Global;

/// The most bytes that a run reads, of the input and of files together.
pub(crate) const INPUT_LIMIT: usize = 67_108_864;

/// How many bytes a read asks for.
const ROOM: usize = 65_536;

// Reads the input to its end, `limit` bytes at most. An error is a read fault, too much input or want of memory.
pub(crate) fn read_all<I: Source>(
    alloc: Global,
    input: &mut I,
    limit: usize,
) -> Result<Vec<u8>, Outcome>
    ensures { let old = device (I.left input.old) (I.faults input.old) in let new = device (I.left input.new) (I.faults input.new) in
        MatchResult result (λ bytes. IsWhole limit old new bytes.items) (λ outcome. IsPart limit old new outcome) }
{
    let mut bytes = Vec::new(alloc);
    let Ok(mut room) = zeroed(alloc, ROOM) else {
        return Err(Outcome::NoMemory);
    };
    loop {
        match input.read(&mut room) {
            ReadAnswer::End => return Ok(bytes),
            ReadAnswer::Failed => return Err(Outcome::ReadFault),
            ReadAnswer::Bytes(count) => {
                if count > limit - bytes.len() {
                    return Err(Outcome::InputTooLarge);
                }
                if bytes.extend_from_slice(&room[..count]).is_err() {
                    return Err(Outcome::NoMemory);
                }
            }
        }
    }
}

// This many bytes, all 0.
fn zeroed(alloc: Global, len: usize) -> Result<Vec<u8>, NoMemory>
    ensures { IfOk result (λ bytes. vec_len bytes ≡ len) }
{
    Ok(vec![in alloc; 0u8; len]?)
}
