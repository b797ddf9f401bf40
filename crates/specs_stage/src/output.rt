ghost use Rattle.std.specs.Prelude.{◌≡◌, ◌≤◌, ◌<◌, ◌-◌, ◌++◌, ◌==◌, ◌+◌, ◌^◌, ℕ, length, replicate, OnOk};
ghost use Rattle.pipe_model.specs.Fields.{fitted, length_of, placed};
ghost use Rattle.specs_stage.specs.Output.{share_of, bytes_of, start_behind, over};

use pipe_model::{Align, NoMemory, Spot, behind, front};

// A field as it is put into the output: its bytes, and how many of the pad are before and behind them.
#[derive(Clone, Copy)]
pub struct Padded<'a> {
    before: usize,
    bytes: &'a [u8],
    behind: usize,
}

impl Padded<'_> {
    fn is_empty(&self) -> bool
        ensures { (pad : ℕ) → result ≡ length (bytes_of pad self.now) == 0 }
    {
        self.before == 0 && self.bytes.is_empty() && self.behind == 0
    }
}

// How much of what lacks, or of what is too much, is at the left.
fn share_of(align: Align, count: usize) -> usize
    ensures { result ≡ share_of align count }
{
    match align {
        Align::Left => 0,
        Align::Center => count / 2,
        Align::Right => count,
    }
}

// The field filled or cut to a length, where there is one.
fn fitted(align: Align, len: Option<u32>, field: &[u8]) -> Padded<'_>
    ensures bytes { (pad : ℕ) → bytes_of pad result ≡ fitted align pad len field.now }
    ensures small { (result.before < 2 ^ 32) × (result.behind < 2 ^ 32) }
{
    match len {
        None => Padded {
            before: 0,
            bytes: field,
            behind: 0,
        },
        Some(len) => {
            let len = len as usize;
            let before = share_of(align, len.saturating_sub(field.len()));
            let skipped = share_of(align, field.len().saturating_sub(len));
            let bytes = front(behind(field, skipped), len - before);
            Padded {
                before,
                bytes,
                behind: len - before - bytes.len(),
            }
        }
    }
}

// The length that a field is made, where the place has one.
fn length_of(spot: Spot) -> Option<u32>
    ensures { result ≡ length_of spot }
{
    match spot {
        Spot::Column { first: _, len } => len,
        Spot::Next { len } => len,
        Spot::NextWord { len } => len,
    }
}

// How many bytes stand before the place in an output of this length.
fn start_of(spot: Spot, len: usize) -> usize
    requires { len < 2 ^ 63 }
    ensures { result ≡ start_behind spot len }
{
    match spot {
        Spot::Column { first, len: _ } => first.saturating_sub(1) as usize,
        Spot::Next { len: _ } => len,
        Spot::NextWord { len: _ } => if len == 0 { 0 } else { len + 1 },
    }
}

// Overwrites the output with bytes from a place that it has.
fn put_bytes(output: &mut Vec<u8>, at: usize, bytes: &[u8]) -> Result<(), NoMemory>
    requires { at ≤ length output.old.items }
    ensures { OnOk result (output.new.items ≡ over at bytes.now output.old.items) }
{
    let there = bytes.len().min(output.len() - at);
    output[at..at + there].copy_from_slice(&bytes[..there]);
    output.extend_from_slice(&bytes[there..])?;
    Ok(())
}

// The same with so many copies of one byte, all within the output.
fn fill(output: &mut Vec<u8>, at: usize, byte: u8, count: usize)
    requires { at + count ≤ length output.old.items }
    ensures { output.new.items ≡ over at (replicate count byte) output.old.items }
{
    output[at..at + count].fill(byte);
}

// Makes the output so long at least.
fn grow(output: &mut Vec<u8>, len: usize, byte: u8) -> Result<(), NoMemory>
    ensures { OnOk result (output.new.items ≡ output.old.items ++ replicate (len - length output.old.items) byte) }
{
    if output.len() < len {
        output.resize(len, byte)?;
    }
    Ok(())
}

// Overwrites the output with copies that may go on behind its end.
fn put_copies(output: &mut Vec<u8>, at: usize, byte: u8, count: usize) -> Result<(), NoMemory>
    requires at { at ≤ length output.old.items }
    requires count { count < 2 ^ 32 }
    ensures { OnOk result (output.new.items ≡ over at (replicate count byte) output.old.items) }
{
    grow(output, at + count, byte)?;
    fill(output, at, byte, count);
    Ok(())
}

// Overwrites the output with a field from a place that it has.
fn put_padded(output: &mut Vec<u8>, at: usize, pad: u8, field: Padded<'_>) -> Result<(), NoMemory>
    requires at { at ≤ length output.old.items }
    requires small { (field.before < 2 ^ 32) × (field.behind < 2 ^ 32) }
    ensures { OnOk result (output.new.items ≡ over at (bytes_of pad field.entry) output.old.items) }
{
    put_copies(output, at, pad, field.before)?;
    let at = at + field.before;
    put_bytes(output, at, field.bytes)?;
    put_copies(output, at + field.bytes.len(), pad, field.behind)
}

// Puts a field into the output in its place.
pub(crate) fn put(
    output: &mut Vec<u8>,
    spot: Spot,
    align: Align,
    pad: u8,
    field: &[u8],
) -> Result<(), NoMemory>
    ensures { OnOk result (output.new.items ≡ placed spot align pad field.now output.old.items) }
{
    let field = fitted(align, length_of(spot), field);
    if field.is_empty() {
        return Ok(());
    }
    let start = start_of(spot, output.len());
    grow(output, start, pad)?;
    put_padded(output, start, pad, field)
}
