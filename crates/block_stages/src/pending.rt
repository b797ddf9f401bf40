ghost use Rattle.std.specs.Prelude.{◌≡◌, ◌≤◌, ◌++◌, length, drop, take, replicate, OnOk};
ghost use Rattle.pipe_model.specs.BlockRows.{filled};

use pipe_model::NoMemory;

// Drops the front of a text where it is no shorter than the rest, so that no byte is moved more often than one is dropped.
// What is left of the front is the place of the rest.
pub(crate) fn without_front(text: &mut Vec<u8>, front: usize) -> usize
    ensures rest { drop result text.new.items ≡ drop front text.old.items }
    ensures within { result ≤ length text.new.items }
{
    let len = text.len();
    if front >= len {
        text.clear();
        return 0;
    }
    let rest = len - front;
    if front < rest {
        return front;
    }
    text.copy_within(front.., 0);
    text.truncate(rest);
    0
}

// Makes a text this long, with more of the byte or without its end.
fn fill(text: &mut Vec<u8>, len: usize, byte: u8) -> Result<(), NoMemory>
    ensures { OnOk result (text.new.items ≡ take len (text.old.items ++ replicate len byte)) }
{
    text.resize(len, byte)?;
    Ok(())
}

// Fills the rest behind the front of a text up to a size, where there is a byte to fill it with.
pub(crate) fn fill_rest(
    text: &mut Vec<u8>,
    front: usize,
    size: u32,
    byte: Option<u8>,
) -> Result<(), NoMemory>
    requires { front ≤ length text.old.items }
    ensures { OnOk result (drop front text.new.items ≡ filled size byte (drop front text.old.items)) }
{
    match byte {
        Some(byte) => fill(text, front + size as usize, byte),
        None => Ok(()),
    }
}
